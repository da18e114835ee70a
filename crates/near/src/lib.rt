// What is near the box of two places: what metal to it costs, and which points of a table are near it in x. Points are in the order of
// places, so those too far left stand first in a table and those too far right last, and both are found by halving.
#![tactic(auto)]

ghost use Rattle.std.specs.Prelude.{◌≡◌, true, false, ℕ, ◌-◌, ◌*◌, ◌^◌, ◌≤◌, ◌<◌, ltb, length};
ghost use Rattle.signed.specs.Sides.{Le};
ghost use Rattle.plane.specs.Flat.{place_at};
ghost use Rattle.plane.specs.Rank.{InOrder};
ghost use Rattle.near.specs.Box.{box_of, outside, box_cost, FarLeft, FarRight};

use plane::{Macro, Place, Weights};

// The closed upright box of two places.
pub fn box_of(a: Place, b: Place) -> Macro
    ensures { result ≡ box_of a b }
{
    Macro {
        left: a.x.min(b.x),
        bottom: a.y.min(b.y),
        right: a.x.max(b.x),
        top: a.y.max(b.y),
    }
}

// How far z lies outside the closed span from low to high.
#[tactic(auto, unfolding(crate::specs::Box::outside))]
fn outside(low: i32, high: i32, z: i32) -> u64
    ensures { (result ≡ outside low high z) × (result < 2 ^ 32) }
{
    if z < low {
        plane::gap(low, z)
    } else if high < z {
        plane::gap(high, z)
    } else {
        0
    }
}

// Whether metal from u to the nearest place of a box costs less than limit. Most places are too far across already.
pub fn is_near_box(w: Weights, m: Macro, u: Place, limit: u64) -> bool
    ensures { result ≡ ltb (box_cost w m u) limit }
{
    let across = plane::axis_cost(outside(m.left, m.right, u.x), w.across);
    across < limit && plane::axis_cost(outside(m.bottom, m.top, u.y), w.along) < limit - across
}

// Whether u is so far left of a box that metal across alone costs the limit. A table in the order of places is cut there.
fn is_far_left(w: Weights, m: Macro, u: Place, limit: u64) -> bool
    ensures { result ≡ true → FarLeft w m u limit }
{
    u.x < m.left && limit <= plane::axis_cost(plane::gap(m.left, u.x), w.across)
}

// The same to the right of it.
fn is_far_right(w: Weights, m: Macro, u: Place, limit: u64) -> bool
    ensures { result ≡ true → FarRight w m u limit }
{
    m.right < u.x && limit <= plane::axis_cost(plane::gap(m.right, u.x), w.across)
}

// Where n points of a table are cut by a test that fails at those before the cut and holds at those from it on: at the last before the cut
// it fails, and at the first after it holds.
fn cut<F: Fn(Place) -> bool>(pts: &[i32], n: usize, holds: F) -> usize
    requires n_in_bounds { n * 2 ≤ length pts.now }
    requires callable { F.IsAlwaysCallable holds }
    ensures within { result ≤ n }
    ensures before { 0 < result → F.post holds (place_at pts.now (result - 1)) false }
    ensures after { result < n → F.post holds (place_at pts.now result) true }
{
    let mut low = 0;
    let mut high = n;
    // Kept: the halves jump, and `partition_point` promises nothing of a test that is not known to cut the table, which is not asked here.
    while low < high {
        let mid = low + (high - low) / 2;
        if holds(plane::place_at(pts, mid)) {
            high = mid;
        } else {
            low = mid + 1;
        }
    }
    low
}

// How many points at the front are too far left.
pub fn from(w: Weights, m: Macro, pts: &[i32], n: usize, limit: u64) -> usize
    requires { (n * 2 ≤ length pts.now) × (InOrder pts.now n) }
    ensures { (result ≤ n) × ((u : ℕ) → u < result → limit ≤ box_cost w m (place_at pts.now u)) }
{
    cut(pts, n, |p| !is_far_left(w, m, p, limit))
}

// The first point from which on all are too far right.
pub fn to(w: Weights, m: Macro, pts: &[i32], n: usize, limit: u64) -> usize
    requires n_in_bounds { (n * 2 ≤ length pts.now) × (InOrder pts.now n) }
    requires le { Le m.left m.right }
    ensures { (result ≤ n) × ((u : ℕ) → result ≤ u → u < n → limit ≤ box_cost w m (place_at pts.now u)) }
{
    cut(pts, n, |p| is_far_right(w, m, p, limit))
}
