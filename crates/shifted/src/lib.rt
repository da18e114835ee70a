// A bar moved: the edges of a tree after the move, from its tables into a flat list.
#![tactic(auto)]

mod place; // place.rt: places moved

ghost use Rattle.std.specs.Prelude.{◌≡◌, ◌+◌, ◌*◌, ◌≤◌, ◌<◌, length, get_or};
ghost use Rattle.slide.specs.Slide.{proper};
ghost use Rattle.straight.specs.Table.{straight_bound, key_bound, first_end, second_end, Within};
ghost use Rattle.settled.specs.Settled.{edges_of};
ghost use Rattle.shifted.specs.Shift.{shifted_at, shifted_edge, shifted, PutIf, Fitting, Movable};

use graph::put_edge;
use plane::Place;
use slide::Side;
use straight::{NUMBERS, POINTS};

// A bar's move: the label of its points, the side and how far.
#[derive(Clone, Copy)]
pub struct Shift {
    pub label: usize,
    pub side: Side,
    pub distance: u64,
}

// The place of point i after the move.
fn shifted_point(pts: &[i32; NUMBERS], lab: &[usize; POINTS], m: Shift, i: usize) -> Place
    requires { (i < straight_bound) × (Fitting m pts.now lab.now i) }
    ensures { result ≡ shifted_at m pts.now lab.now i }
{
    let p = straight::point_at(pts, i);
    if lab[i] == m.label {
        place::moved(m.side, m.distance, p)
    } else {
        p
    }
}

// The edge of a and b as the next of the list, unless they are one place.
fn put_proper(out: &mut [i32], count: usize, a: Place, b: Place) -> usize
    requires { count * 4 + 4 ≤ length out.old }
    ensures { PutIf (proper (a, b)) (a, b) out.old count out.new result }
{
    if plane::is_same_place(a, b) {
        count
    } else {
        put_edge(out, count, a, b);
        count + 1
    }
}

// Edge k after the move, as the next of the list.
fn put_shifted(
    pts: &[i32; NUMBERS],
    keys: &[usize; POINTS],
    lab: &[usize; POINTS],
    m: Shift,
    k: usize,
    out: &mut [i32],
    count: usize,
) -> usize
    requires k_lt_straight_bound { (k < straight_bound) × ((get_or keys.now k 0 < key_bound) × (count * 4 + 4 ≤ length out.old)) }
    requires fitting { (Fitting m pts.now lab.now (first_end (get_or keys.now k 0)))
        × (Fitting m pts.now lab.now (second_end (get_or keys.now k 0))) }
    ensures { PutIf (proper (shifted_edge m pts.now lab.now (get_or keys.now k 0)))
        (shifted_edge m pts.now lab.now (get_or keys.now k 0)) out.old count
        out.new result }
{
    let a = shifted_point(pts, lab, m, straight::first_end(keys, k));
    let b = shifted_point(pts, lab, m, straight::second_end(keys, k));
    put_proper(out, count, a, b)
}

// The first e edges after the move: those whose ends became one go. How many are left.
pub fn shift_edges(
    pts: &[i32; NUMBERS],
    n: usize,
    keys: &[usize; POINTS],
    e: usize,
    lab: &[usize; POINTS],
    m: Shift,
    out: &mut [i32],
) -> usize
    requires n_le_straight_bound { (n ≤ straight_bound) × ((e ≤ straight_bound) × (Within n keys.now)) }
    requires movable { (Movable m pts.now n lab.now) × (e * 4 ≤ length out.old) }
    ensures { (edges_of out.new result ≡ shifted m pts.now lab.now keys.now e) × (result ≤ e) }
{
    let mut count = 0;
    for k in 0..e {
        count = put_shifted(pts, keys, lab, m, k, out, count);
    }
    count
}
