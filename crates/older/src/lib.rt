// A net file between an older machine and this one, and as the first release wrote it. There is no code here.
#![tactic(auto)]
