// Interiors and boxes as points of the plane, fractions included, and the tests of them. There is no code here.
#![tactic(auto)]
