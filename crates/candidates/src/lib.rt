// Candidates of a round, on tables of a tree's points and edges.
//
// A point is its number in the table of points, which is in the order of places; an edge is the key of its ends' numbers, in a table in the
// order of edges. So every tie is settled by scanning upwards and giving way only to what is strictly better.
#![tactic(auto)]

pub mod candidate; // candidate.rt: candidates on the tree, and the best of them

// A candidate: its gain, the edge (a, b), the point u and the edge L, by their numbers. With gain 0 there is none.
#[derive(Clone, Copy)]
pub struct Best {
    pub gain: u64,
    pub edge: usize,
    pub point: usize,
    pub cut: usize,
}

impl Best {
    // No candidate.
    pub const NONE: Best = Best {
        gain: 0,
        edge: 0,
        point: 0,
        cut: 0,
    };
}
