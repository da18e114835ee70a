// What the slid tree is, as a relation with one solution. There is no code here.
#![tactic(auto)]
