// An edge from a to b and a third point u, with s, the middle of the three: what is asked of them before they are a candidate.
#![tactic(auto)]

ghost use Rattle.std.specs.Prelude.{◌≡◌, ◌≤◌, ◌<◌};
ghost use Rattle.plane.specs.Flat.{macros_of};
ghost use Rattle.tree.specs.Table.{tree_bound};
ghost use Rattle.triples.specs.Triple.{sees, taken, dropped, allowed, may_gain};

use plane::{Macro, Place, Weights};
use tree::NUMBERS;

// u is clear of a or of b.
#[tactic(auto, unfolding(crate::specs::Triple::sees))]
pub fn sees(macros: &[i32], a: Place, b: Place, u: Place) -> bool
    ensures { result ≡ sees (macros_of macros.now) a b u }
{
    clear::is_clear(u, a, macros) || clear::is_clear(u, b, macros)
}

// The point i stands at s and is none of a, b and u.
#[tactic(auto, unfolding(crate::specs::Triple::taken))]
fn is_taken(pts: &[i32; NUMBERS], a: usize, b: usize, u: usize, s: Place, i: usize) -> bool
    requires { i < tree_bound }
    ensures { result ≡ taken pts.now a b u s i }
{
    i != a && i != b && i != u && plane::is_same_place(s, tree::point_at(pts, i))
}

// Another point than a, b and u stands at s.
pub fn is_dropped(pts: &[i32; NUMBERS], n: usize, a: usize, b: usize, u: usize, s: Place) -> bool
    requires { n ≤ tree_bound }
    ensures { result ≡ dropped pts.now n a b u s }
{
    for i in 0..n {
        if is_taken(pts, a, b, u, s, i) {
            return true;
        }
    }
    false
}

// u sees the edge of a and b, and s is free.
#[tactic(auto, unfolding(crate::specs::Triple::allowed))]
pub fn is_allowed(
    pts: &[i32; NUMBERS],
    n: usize,
    macros: &[i32],
    a: usize,
    b: usize,
    u: usize,
    s: Place,
) -> bool
    requires { ((a < tree_bound) × (b < tree_bound)) × ((u < tree_bound) × (n ≤ tree_bound)) }
    ensures { result ≡ allowed pts.now n (macros_of macros.now) a b u s }
{
    sees(
        macros,
        tree::point_at(pts, a),
        tree::point_at(pts, b),
        tree::point_at(pts, u),
    ) && !is_dropped(pts, n, a, b, u, s)
}

// Whether more than g can be gained with a place p that is f away from the tree, of edges in the box m, where none costs more than most.
// The box is asked last, and before L, what is clear and what is dropped.
pub fn may_gain(w: Weights, m: Macro, p: Place, f: u64, g: u64, most: u64) -> bool
    ensures { result ≡ may_gain w m p f g most }
{
    f < most && g < most - f && near::is_near_box(w, m, p, most - f - g)
}
