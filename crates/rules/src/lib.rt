// What the trees of a net are, as relations over places and edges, each with our answer as its one solution. There is no code here.
#![tactic(auto)]
