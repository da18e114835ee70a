// All that is promised of the published operations, over the definitions that their contracts name. There is no code here.
#![tactic(auto)]
