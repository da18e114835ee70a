// What is done to a tree, on its tables: the exchange of a round, and pruning at the end.
#![tactic(auto)]

pub mod exchange; // exchange.rt: what a round does with its candidate
pub mod prune; // prune.rt: points that go at the end
