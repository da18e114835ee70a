// What is asked of a bar that may move: its sides and what a unit costs there, whether a pin holds it, and which of two moves is better.
//
// A bar is told by the label of its points; a pin by its seat, the number of its point.
#![tactic(auto)]

ghost use Rattle.std.specs.Prelude.{◌≡◌, [], ◌^◌, ◌≤◌, ◌<◌};
ghost use Rattle.plane.specs.Rank.{InOrder};
ghost use Rattle.net.specs.Bounds.{pin_bound};
ghost use Rattle.net.specs.Pins.{pin_count};
ghost use Rattle.slide.specs.Side.{horizontal};
ghost use Rattle.slide.specs.Slide.{better};
ghost use Rattle.straight.specs.Table.{straight_bound};
ghost use Rattle.turned.specs.Turned.{view};
ghost use Rattle.moves.specs.Moving.{opposite, weight_in, label_view, Seated, held, last_on, bar, seat_of, seats_of};

use net::Net;
use plane::{Place, Weights};
use reach::Bar;
use slide::{Move, Side};
use straight::{NUMBERS, POINTS};

pub const PINS: usize = Net::PINS;

// Whether the bars that move to this side are horizontal.
pub fn is_horizontal(s: Side) -> bool
    ensures { result ≡ horizontal s }
{
    matches!(s, Side::Above | Side::Below)
}

// The side that lies opposite.
pub fn opposite(s: Side) -> Side
    ensures { result ≡ opposite s }
{
    match s {
        Side::Above => Side::Below,
        Side::Below => Side::Above,
        Side::Right => Side::Left,
        Side::Left => Side::Right,
    }
}

// What a unit of a hanging edge costs.
pub fn weight_of(w: Weights, s: Side) -> u64
    ensures { (result ≡ weight_in w s) × (result < 2 ^ 8) }
{
    u64::from(if is_horizontal(s) { w.along } else { w.across })
}

// The greatest saving, then the smallest first place, then a horizontal bar.
pub fn is_better(m: Move, n: Move) -> bool
    ensures { result ≡ better m n }
{
    if m.saving != n.saving {
        n.saving < m.saving
    } else if plane::is_same_place(m.first, n.first) {
        is_horizontal(m.side) & !is_horizontal(n.side)
    } else {
        plane::is_before(m.first, n.first)
    }
}

// A pin has the label l; a pin is known by the number of its point.
pub fn is_held(seats: &[usize; PINS], m: usize, lab: &[usize; POINTS], l: usize) -> bool
    requires { (m ≤ pin_bound) × (Seated m seats.now) }
    ensures { result ≡ held (label_view lab.now l) seats.now m }
{
    for i in 0..m {
        if lab[seats[i]] == l {
            return true;
        }
    }
    false
}

// The last of the first n points with the label l; l where none has it.
fn last_of(lab: &[usize; POINTS], n: usize, l: usize) -> usize
    requires { (n ≤ straight_bound) × (l < straight_bound) }
    ensures { (result ≡ last_on (label_view lab.now l) n) × (result < straight_bound) }
{
    for i in (0..n).rev() {
        if lab[i] == l {
            return i;
        }
    }
    l
}

// The bar with label l as it moves to side s by at most d.
pub fn bar_of(
    pts: &[i32; NUMBERS],
    lab: &[usize; POINTS],
    n: usize,
    s: Side,
    l: usize,
    d: u64,
) -> Bar
    requires { ((n ≤ straight_bound) × (l < straight_bound)) × (d ≤ 2 ^ 32) }
    ensures { result ≡ bar (view pts.now [] lab.now s l) n d }
{
    let first = turned::spot_at(pts, s, l);
    let last = turned::spot_at(pts, s, last_of(lab, n, l));
    Bar {
        side: s,
        label: l,
        first,
        last,
        most: d,
        top: first.across + d,
    }
}

// The number of the point at p, found by halving; 0 where none is.
fn seat_of(pts: &[i32; NUMBERS], n: usize, p: Place) -> usize
    requires { (n ≤ straight_bound) × (InOrder pts.now n) }
    ensures { (result ≡ seat_of pts.now n p) × (result < straight_bound) }
{
    let at = plane::rank(pts, n, p);
    if at < n && plane::is_same_place(p, straight::point_at(pts, at)) {
        at
    } else {
        0
    }
}

// The numbers of the points of the first m pins.
pub fn seat(pts: &[i32; NUMBERS], n: usize, pins: &[i32], m: usize, seats: &mut [usize; PINS])
    requires { ((n ≤ straight_bound) × (InOrder pts.now n)) × ((m ≤ pin_bound) × (m ≤ pin_count pins.now)) }
    ensures { seats.new ≡ seats_of pts.now n pins.now m seats.old }
{
    for j in 0..m {
        seats[j] = seat_of(pts, n, net::pin_at(pins, j));
    }
}
