// The plane: places, macros, and the cost of metal between two places.
//
// Coordinates are i32 and any value is taken: how far two lie apart has no sign, and is added and weighted in 64 bits, so that nothing
// can overflow.
#![tactic(auto)]

ghost use Rattle.std.specs.Prelude.{◌≡◌, ◌+◌, ◌*◌, ◌≤◌, ◌^◌, ◌<◌, length};
ghost use Rattle.std.proofs.lemmas.List.Edits.{sets};
ghost use Rattle.plane.specs.Place.{before, same_place};
ghost use Rattle.plane.specs.Distance.{apart, distance};
ghost use Rattle.plane.specs.Cost.{cost, cost_limit};
ghost use Rattle.plane.specs.Middle.{middle, middle_place};
ghost use Rattle.plane.specs.Flat.{place_at, place_numbers};
ghost use Rattle.plane.specs.Rank.{InOrder, rank};
ghost use Rattle.signed.specs.Order.{z_min, z_max};

// A place of the plane. Places go by x, then by y.
#[derive(Clone, Copy, PartialEq, Eq, PartialOrd, Ord)]
pub struct Place {
    pub x: i32,
    pub y: i32,
}

// An upright rectangle.
#[derive(Clone, Copy, PartialEq, Eq)]
pub struct Macro {
    pub left: i32,
    pub bottom: i32,
    pub right: i32,
    pub top: i32,
}

// What a unit of metal costs along each axis: a byte each, so that no cost of 32-bit places can overflow 64 bits.
#[derive(Clone, Copy, PartialEq, Eq)]
pub struct Weights {
    pub across: u8,
    pub along: u8,
}

impl Weights {
    // With these what metal costs is its plain length.
    pub const PLAIN: Weights = Weights {
        across: 1,
        along: 1,
    };
}

// The smaller and the greater of two coordinates, for spans and the middle of three.
#[tactic(auto, using(crate::proofs::MachineLaws::min_is))]
pub fn smaller(a: i32, b: i32) -> i32
    ensures { result ≡ z_min a b }
{
    a.min(b)
}

#[tactic(auto, using(crate::proofs::MachineLaws::max_is))]
pub fn greater(a: i32, b: i32) -> i32
    ensures { result ≡ z_max a b }
{
    a.max(b)
}

// How far a and b lie apart.
#[tactic(auto, unfolding(crate::specs::Distance::apart))]
pub fn gap(a: i32, b: i32) -> u64
    ensures { (result ≡ apart a b) × (result < 2 ^ 32) }
{
    u64::from(a.abs_diff(b))
}

// What a gap costs along an axis of this weight.
pub fn axis_cost(gap: u64, weight: u8) -> u64
    requires { gap < 2 ^ 32 }
    ensures { (result ≡ gap * weight) × (result < 2 ^ 40) }
{
    gap * u64::from(weight)
}

#[tactic(auto, unfolding(crate::specs::Middle::middle))]
fn median(a: i32, b: i32, c: i32) -> i32
    ensures { result ≡ middle a b c }
{
    greater(smaller(a, b), smaller(greater(a, b), c))
}

// The order of places: by x, then by y.
// Kept: in three steps; the derived `<` says the same and takes three times as long where a place is put into a table.
#[tactic(auto, unfolding(crate::specs::Place::before))]
pub fn is_before(a: Place, b: Place) -> bool
    ensures { result ≡ before a b }
{
    if a.x < b.x {
        true
    } else if b.x < a.x {
        false
    } else {
        a.y < b.y
    }
}

#[tactic(auto, using(crate::proofs::MachineLaws::eq_is), unfolding(crate::specs::Place::same_place))]
pub fn is_same_place(a: Place, b: Place) -> bool
    ensures { result ≡ same_place a b }
{
    a == b
}

// The plain length between two places.
#[tactic(auto, unfolding(crate::specs::Distance::distance))]
pub fn distance(a: Place, b: Place) -> u64
    ensures { result ≡ distance a b }
{
    gap(a.x, b.x) + gap(a.y, b.y)
}

// What metal between two places costs.
#[tactic(auto, unfolding(crate::specs::Cost::cost))]
pub fn cost(w: Weights, a: Place, b: Place) -> u64
    ensures { (result ≡ cost w a b) × (result < cost_limit) }
{
    axis_cost(gap(a.x, b.x), w.across) + axis_cost(gap(a.y, b.y), w.along)
}

// The place in the middle of three, axis by axis.
#[tactic(auto, unfolding(crate::specs::Middle::middle_place))]
pub fn middle_place(a: Place, b: Place, u: Place) -> Place
    ensures { result ≡ middle_place a b u }
{
    Place {
        x: median(a.x, b.x, u.x),
        y: median(a.y, b.y, u.y),
    }
}

// The i-th place of a flat list.
pub fn place_at(places: &[i32], i: usize) -> Place
    requires { i * 2 + 2 ≤ length places.now }
    ensures { result ≡ place_at places.now i }
{
    let k = i * 2;
    Place {
        x: places[k],
        y: places[k + 1],
    }
}

// p as the i-th place of a flat list.
pub fn put_place(places: &mut [i32], i: usize, p: Place)
    requires { i * 2 + 2 ≤ length places.old }
    ensures { places.new ≡ sets places.old (i * 2) (place_numbers p) }
{
    let k = i * 2;
    places[k] = p.x;
    places[k + 1] = p.y;
}

// How many of the first n places of a flat list, which are in order, come before p. They are halved, so that few are asked.
pub fn rank(places: &[i32], n: usize, p: Place) -> usize
    requires { (n * 2 ≤ length places.now) × (InOrder places.now n) }
    ensures { (result ≡ rank places.now n p) × (result ≤ n) }
{
    let mut low = 0;
    let mut high = n;
    while low < high {
        let mid = low + (high - low) / 2;
        if is_before(place_at(places, mid), p) {
            low = mid + 1;
        } else {
            high = mid;
        }
    }
    low
}
