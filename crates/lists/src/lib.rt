// Searches, membership, sorted lists and sums, for contracts and proofs. There is no code here.
#![tactic(auto)]
