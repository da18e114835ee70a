// Laws by which proofs read signed numbers. There is no code here.
#![tactic(auto)]
