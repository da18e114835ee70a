// Links: the table of what each vertex picks, where one of two vertices picks the other, and how far that goes.
#![tactic(auto)]

ghost use Rattle.std.specs.Prelude.{◌≡◌, ◌⊎◌, ◌+◌, ◌*◌, ◌/◌, ◌≤◌, ◌<◌, length};
ghost use Rattle.std.proofs.lemmas.List.Edits.{sets};
ghost use Rattle.lists.specs.Sorted.{Ascending};
ghost use Rattle.plane.specs.Place.{before};
ghost use Rattle.plane.specs.Flat.{places_of, macros_of};
ghost use Rattle.net.specs.Bounds.{point_bound, edge_bound};
ghost use Rattle.links.specs.Links.{four_picks, has_picked, is_linked, PicksHeld, Widened, Reached};

use net::Net;
use picks::{Quadrant, TwoPicks};
use plane::Weights;

// Four picks a vertex.
pub const PICKS: usize = Net::EDGES;

pub const POINTS: usize = Net::POINTS;

// What the k-th vertex picks above and below it, quadrant by quadrant.
fn put_four(picked: &mut [u16; PICKS], k: usize, above: TwoPicks, below: TwoPicks)
    requires { k < point_bound }
    ensures { picked.new ≡ sets picked.old (k * 4) (four_picks above below) }
{
    picked[k * 4..k * 4 + 4].copy_from_slice(&[above.right, above.left, below.left, below.right]);
}

// The numbers that each of n vertices picks, four a vertex.
pub fn put_picks(w: Weights, macros: &[i32], vertices: &[i32], n: usize, picked: &mut [u16; PICKS])
    requires ascending { (Ascending before (places_of vertices.now)) × ((n ≡ length vertices.now / 2) × (n ≤ point_bound)) }
    requires picked_len { length picked.old ≡ edge_bound }
    ensures { PicksHeld w (macros_of macros.now) vertices.now picked.new n }
{
    for k in 0..n {
        let above = picks::picks(w, macros, vertices, k, Quadrant::Second, Quadrant::First);
        let below = picks::picks(w, macros, vertices, k, Quadrant::Third, Quadrant::Fourth);
        put_four(picked, k, above, below);
    }
}

// The a-th vertex picks the b-th.
fn has_picked(picked: &[u16; PICKS], a: usize, b: u16) -> bool
    requires { a < point_bound }
    ensures { result ≡ has_picked picked.now a b }
{
    picked[a * 4..a * 4 + 4].contains(&b)
}

// One of two vertices picks the other.
#[tactic(auto, unfolding(crate::specs::Links::is_linked))]
pub fn is_linked(picked: &[u16; PICKS], a: usize, b: usize) -> bool
    requires { (a < point_bound) × (b < point_bound) }
    ensures { result ≡ is_linked picked.now a b }
{
    has_picked(picked, a, picks::narrow(b)) | has_picked(picked, b, picks::narrow(a))
}

// Rows: most vertices are linked to near ones only, so a row ends at the last that it can have.

// The a-th of n vertices picks the b-th, or none: each of the two reaches the other.
fn widen(last: &mut [u16; POINTS], n: usize, a: usize, b: u16)
    requires { (a < n) × ((n ≤ point_bound) × (length last.old ≡ point_bound)) }
    ensures { Widened n a b last.old last.new }
{
    let c = usize::from(b);
    if c < n {
        last[a] = last[a].max(b);
        last[c] = last[c].max(picks::narrow(a));
    }
}

// The four picks of the k-th vertex.
fn widen_four(picked: &[u16; PICKS], n: usize, k: usize, last: &mut [u16; POINTS])
    requires k_lt_n { (k < n) × ((n ≤ point_bound) × (length last.old ≡ point_bound)) }
    requires reached { Reached picked.now last.old n k }
    ensures { (length last.new ≡ point_bound) × (Reached picked.now last.new n (k + 1)) }
{
    for i in 0..4 {
        widen(last, n, k, picked[k * 4 + i]);
    }
}

// A number for each of n vertices that none linked to it exceeds.
pub fn reach(picked: &[u16; PICKS], n: usize, last: &mut [u16; POINTS])
    requires { (n ≤ point_bound) × (length last.old ≡ point_bound) }
    ensures { Reached picked.now last.new n n }
{
    for k in 0..n {
        widen_four(picked, n, k, last);
    }
}

// Where the row of the a-th of n vertices ends: no vertex from there on is linked to it.
pub fn row_end(n: usize, a: usize, last: u16) -> usize
    requires { (a < n) × (n ≤ point_bound) }
    ensures { ((a < result) × (result ≤ n)) × ((last < result) ⊎ (result ≡ n)) }
{
    (usize::from(last).max(a) + 1).min(n)
}
