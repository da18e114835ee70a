// The tables of a tree of axis-parallel edges: those of crate tree, for twice as many points, since each edge may bring a bend.
#![tactic(auto)]

ghost use Rattle.std.specs.Prelude.{◌≡◌, ◌*◌, ◌≤◌, ◌<◌, get_or, length};
ghost use Rattle.lists.specs.Sorted.{position};
ghost use Rattle.plane.specs.Place.{before};
ghost use Rattle.plane.specs.Flat.{place_at};
ghost use Rattle.plane.specs.Rank.{InOrder};
ghost use Rattle.straight.specs.Table.{straight_bound, key_bound, first_end, second_end, points_in};

use plane::Place;

// Points after bending, fewer than twice those of a refined tree; the numbers of their places, and of edges as two places each.
pub const POINTS: usize = tree::POINTS * 2;

pub const NUMBERS: usize = POINTS * 2;

pub const EDGE_NUMBERS: usize = POINTS * 4;

// The place of point i.
pub fn point_at(pts: &[i32; NUMBERS], i: usize) -> Place
    requires { i < straight_bound }
    ensures { result ≡ place_at pts.now i }
{
    plane::place_at(pts, i)
}

// The number of the first end of edge i, and of its second end.
pub fn first_end(keys: &[usize; POINTS], i: usize) -> usize
    requires { (i < straight_bound) × (get_or keys.now i 0 < key_bound) }
    ensures { (result ≡ first_end (get_or keys.now i 0)) × (result < straight_bound) }
{
    keys[i] / POINTS
}

pub fn second_end(keys: &[usize; POINTS], i: usize) -> usize
    requires { i < straight_bound }
    ensures { (result ≡ second_end (get_or keys.now i 0)) × (result < straight_bound) }
{
    keys[i] % POINTS
}

// How many of n places, which are in order, come before p: its number, if it is one of them.
pub fn rank(pts: &[i32], n: usize, p: Place) -> usize
    requires { (n * 2 ≤ length pts.now) × (InOrder pts.now n) }
    ensures { (result ≡ position before (points_in pts.now n) p) × (result ≤ n) }
{
    plane::rank(pts, n, p)
}
