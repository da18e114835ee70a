// Points joined by pairs: trees, ways, the shortest joining. A theory for contracts and proofs; there is no code here.
#![tactic(auto)]
