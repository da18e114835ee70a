// Trees of worked nets, and wrong trees of small nets, worked out from the definitions. There is no code here.
#![tactic(auto)]
