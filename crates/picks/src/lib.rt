// Picks: what a vertex picks in each of its quadrants, by passes over the vertices in order.
#![tactic(auto)]

ghost use Rattle.std.specs.Prelude.{◌≡◌, ◌+◌, ◌/◌, ◌≤◌, ◌<◌, length};
ghost use Rattle.lists.specs.Sorted.{Ascending};
ghost use Rattle.plane.specs.Place.{before};
ghost use Rattle.plane.specs.Flat.{places_of, macros_of, place_at};
ghost use Rattle.net.specs.Bounds.{point_bound};
ghost use Rattle.picks.specs.Pick.{within, pick};
ghost use Rattle.picks.specs.Pass.{leads, best_of, is_next, if_clear, is_past, OnLeft, OnRight, vertex_picked};

use plane::{Place, Weights};

// One of the four quadrants of a vertex.
#[derive(Clone, Copy, PartialEq, Eq)]
pub enum Quadrant {
    First,
    Second,
    Third,
    Fourth,
}

// A vertex by its number, and what metal to it costs. For none, the number of all and a cost above every other.
#[derive(Clone, Copy)]
pub struct Near {
    pub at: usize,
    pub far: u64,
}

// The best so far of a pass, and the macro to ask first, which is the one that blocked last.
#[derive(Clone, Copy)]
pub struct Standing {
    pub at: usize,
    pub far: u64,
    pub by: usize,
}

// What a vertex picks in two quadrants, by number; the number of all for none. A table of these stands on the stack, so they are narrow.
#[derive(Clone, Copy)]
pub struct TwoPicks {
    pub left: u16,
    pub right: u16,
}

#[tactic(auto, unfolding(crate::specs::Pick::within))]
fn is_within(q: Quadrant, u: Place, v: Place) -> bool
    ensures { result ≡ within q u v }
{
    match q {
        Quadrant::First => (u.x < v.x) & (u.y <= v.y),
        Quadrant::Second => (v.x <= u.x) & (u.y < v.y),
        Quadrant::Third => (v.x < u.x) & (v.y <= u.y),
        Quadrant::Fourth => (u.x <= v.x) & (v.y < u.y),
    }
}

// The best so far comes no later, by cost and then by number, than what is at that cost and has that number.
#[tactic(auto, unfolding(crate::specs::Pass::leads))]
fn leads(best: Near, far: u64, i: usize) -> bool
    ensures { result ≡ leads best far i }
{
    (best.far < far) | ((best.far == far) & (best.at <= i))
}

// The i-th vertex, v, is in the quadrant and comes before the best so far.
#[tactic(auto, unfolding(crate::specs::Pass::is_next))]
fn is_next(w: Weights, q: Quadrant, u: Place, held: Standing, i: usize, v: Place) -> bool
    ensures { result ≡ is_next w q u (best_of held) i v }
{
    let best = Near {
        at: held.at,
        far: held.far,
    };
    is_within(q, u, v) && !leads(best, plane::cost(w, u, v), i)
}

// The i-th vertex, v, where it is clear, else the best so far. This is asked last: it looks at every macro.
#[tactic(auto, unfolding(crate::specs::Pass::if_clear))]
fn look_at(w: Weights, macros: &[i32], u: Place, held: Standing, i: usize, v: Place) -> Standing
    ensures { best_of result ≡ if_clear w (macros_of macros.now) u (best_of held) i v }
{
    match clear::look(u, v, macros, held.by) {
        Some(by) => Standing { by, ..held },
        None => Standing {
            at: i,
            far: plane::cost(w, u, v),
            ..held
        },
    }
}

// The vertex of a turn: those before the k-th downwards, then all others upwards.
fn outward(k: usize, t: usize) -> usize
    ensures { (t < k → result + t + 1 ≡ k) × (k ≤ t → result ≡ t) }
{
    if t < k { k - t - 1 } else { t }
}

// The turn after the last one on the same side.
fn side_end(k: usize, t: usize, n: usize) -> usize
    ensures { (t < k → result ≡ k) × (k ≤ t → result ≡ n) }
{
    if t < k { k } else { n }
}

// Whatever stands as far from u across as v, or farther, is beyond the best on that side.
#[tactic(auto, unfolding(crate::specs::Pass::is_past))]
fn is_past(w: Weights, u: Place, v: Place, left: u64, right: u64) -> bool
    ensures { result ≡ is_past w u v left right }
{
    let across = plane::cost(w, u, Place { x: v.x, y: u.y });
    if v.x < u.x {
        left < across
    } else {
        right < across
    }
}

// A number of a vertex, or that of all, as it stands in a table.
pub fn narrow(i: usize) -> u16
    requires { i ≤ point_bound }
    ensures { result ≡ i }
{
    i as u16
}

// What the k-th vertex picks in a quadrant to its left and in one to its right, by one pass over the vertices, which are in order. It goes
// outward from the k-th, so that near ones come first and a side ends once no pick on it can be beaten.
pub fn picks(
    w: Weights,
    macros: &[i32],
    vertices: &[i32],
    k: usize,
    leftward: Quadrant,
    rightward: Quadrant,
) -> TwoPicks
    requires on_left { (OnLeft leftward) × (OnRight rightward) }
    requires ascending { (Ascending before (places_of vertices.now))
        × ((k < length vertices.now / 2) × (length vertices.now / 2 ≤ point_bound)) }
    ensures left_value { vertex_picked vertices.now result.left ≡ pick w (macros_of macros.now) leftward
        (place_at vertices.now k) (places_of vertices.now) }
    ensures right_value { vertex_picked vertices.now result.right ≡ pick w (macros_of macros.now) rightward
        (place_at vertices.now k) (places_of vertices.now) }
{
    let n = vertices.len() / 2;
    let u = plane::place_at(vertices, k);
    let mut left = Standing {
        at: n,
        far: u64::MAX,
        by: 0,
    };
    let mut right = left;
    let mut t = 0;
    // Where a side ends, the turn jumps to the next one.
    while t < n {
        let i = outward(k, t);
        let v = plane::place_at(vertices, i);
        if is_past(w, u, v, left.far, right.far) {
            t = side_end(k, t, n);
        } else {
            t += 1;
            if is_next(w, leftward, u, left, i, v) {
                left = look_at(w, macros, u, left, i, v);
            } else if is_next(w, rightward, u, right, i, v) {
                right = look_at(w, macros, u, right, i, v);
            }
        }
    }
    TwoPicks {
        left: narrow(left.at),
        right: narrow(right.at),
    }
}
