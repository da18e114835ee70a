// The tables of a tree, from union to delay: its points in the order of places, two numbers each, and its edges as keys of their ends'
// numbers, in the order of edges.
#![tactic(auto)]

ghost use Rattle.std.specs.Prelude.{◌≡◌, ◌<◌};
ghost use Rattle.plane.specs.Flat.{place_at};
ghost use Rattle.tree.specs.Table.{tree_bound, set_point};

use net::Net;
use plane::Place;

// Points of a tree, at most n + m; the numbers of their places.
pub const POINTS: usize = Net::TREE_POINTS;

pub const NUMBERS: usize = POINTS * 2;

// How many points and edges a tree has.
#[derive(Clone, Copy)]
pub struct Size {
    pub points: usize,
    pub edges: usize,
}

// The place of point i.
pub fn point_at(pts: &[i32; NUMBERS], i: usize) -> Place
    requires { i < tree_bound }
    ensures { result ≡ place_at pts.now i }
{
    plane::place_at(pts, i)
}

// p as the place of point i.
pub fn put_point(pts: &mut [i32; NUMBERS], i: usize, p: Place)
    requires { i < tree_bound }
    ensures { pts.new ≡ set_point pts.old i p }
{
    plane::put_place(pts, i, p);
}
