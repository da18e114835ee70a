// What each operation answers: its refusals in their order, then what is given. There is no code here.
#![tactic(auto)]
