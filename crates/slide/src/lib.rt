// The slid tree: definitions and theorems over places and edges. There is no code here but the words that definitions and code share.
#![tactic(auto)]

use plane::Place;

// The side to which a bar moves: a horizontal one up or down, a vertical one right or left.
#[derive(Clone, Copy, PartialEq, Eq, Debug)]
pub enum Side {
    Above,
    Below,
    Right,
    Left,
}

// What a bar would save by moving to a side, and how far it moves; its first place tells it among the bars of one direction.
#[derive(Clone, Copy)]
pub struct Move {
    pub saving: u64,
    pub first: Place,
    pub side: Side,
    pub distance: u64,
}
