// What an answer says and what lent space holds after it, for contracts and proofs. There is no code here.
#![tactic(auto)]
