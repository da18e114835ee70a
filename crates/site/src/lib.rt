// A net moved across the wafer: its trees move with it. There is no code here.
#![tactic(auto)]
