// Places and macros turned as a bar has them that moves to a side: a bar's line is the first number and the side to which it moves the
// second, both raised above zero. What follows is said for one direction.
#![tactic(auto)]

ghost use Rattle.std.specs.Prelude.{◌≡◌, ◌-◌, ◌^◌, ◌≤◌, ◌<◌, min, max, pos, ◌-ℤ◌, get_or, []};
ghost use Rattle.plane.specs.Flat.{place_at};
ghost use Rattle.straight.specs.Table.{straight_bound, key_bound};
ghost use Rattle.turned.specs.Turned.{raised, spot, face, same_spot, level_at, view, seen, seen_edge, gap, ahead_of, behind_of, long_of};

use plane::{Macro, Place};
use slide::Side;
use straight::{NUMBERS, POINTS};

// A place as a bar has it that moves to a side: along its line, and across it, rising towards the side.
#[derive(Clone, Copy, PartialEq, Eq, Debug)]
pub struct Spot {
    pub along: u64,
    pub across: u64,
}

// A macro so: from where to where along the bar's line, and its near and far sides across it.
#[derive(Clone, Copy)]
pub struct Face {
    pub starts: u64,
    pub finishes: u64,
    pub near: u64,
    pub far: u64,
}

// An edge as a bar has it, or a point as the edge of it and itself: which ends are on the bar, and their spots.
#[derive(Clone, Copy)]
pub struct Seen {
    pub first: bool,
    pub second: bool,
    pub from: Spot,
    pub to: Spot,
}

// What is added to a coordinate, so that none is below zero.
const ZERO: i64 = 2147483648;

fn raised(z: i32) -> u64
    ensures { (result ≡ raised z) × (result ≤ 2 ^ 32) }
{
    (i64::from(z) + ZERO).cast_unsigned()
}

// The same of a coordinate turned round.
fn turned(z: i32) -> u64
    ensures { (result ≡ raised (pos 0 -ℤ z)) × (result ≤ 2 ^ 32) }
{
    (ZERO - i64::from(z)).cast_unsigned()
}

pub fn spot_of(s: Side, p: Place) -> Spot
    ensures { (result ≡ spot s p) × (result.across ≤ 2 ^ 32) }
{
    match s {
        Side::Above => Spot {
            along: raised(p.x),
            across: raised(p.y),
        },
        Side::Below => Spot {
            along: raised(p.x),
            across: turned(p.y),
        },
        Side::Right => Spot {
            along: raised(p.y),
            across: raised(p.x),
        },
        Side::Left => Spot {
            along: raised(p.y),
            across: turned(p.x),
        },
    }
}

pub fn face_of(s: Side, m: Macro) -> Face
    ensures { (result ≡ face s m) × (result.near ≤ 2 ^ 32) }
{
    match s {
        Side::Above => Face {
            starts: raised(m.left),
            finishes: raised(m.right),
            near: raised(m.bottom),
            far: raised(m.top),
        },
        Side::Below => Face {
            starts: raised(m.left),
            finishes: raised(m.right),
            near: turned(m.top),
            far: turned(m.bottom),
        },
        Side::Right => Face {
            starts: raised(m.bottom),
            finishes: raised(m.top),
            near: raised(m.left),
            far: raised(m.right),
        },
        Side::Left => Face {
            starts: raised(m.bottom),
            finishes: raised(m.top),
            near: turned(m.right),
            far: turned(m.left),
        },
    }
}

pub fn spot_at(pts: &[i32; NUMBERS], s: Side, i: usize) -> Spot
    requires { i < straight_bound }
    ensures { (result ≡ spot s (place_at pts.now i)) × (result.across ≤ 2 ^ 32) }
{
    spot_of(s, straight::point_at(pts, i))
}

// Edge k as the bar of this label has it.
pub fn seen_edge(
    pts: &[i32; NUMBERS],
    keys: &[usize; POINTS],
    lab: &[usize; POINTS],
    s: Side,
    l: usize,
    k: usize,
) -> Seen
    requires { (k < straight_bound) × (get_or keys.now k 0 < key_bound) }
    ensures { (result ≡ seen_edge (view pts.now keys.now lab.now s l) k)
        × ((result.from.across ≤ 2 ^ 32) × (result.to.across ≤ 2 ^ 32)) }
{
    let a = straight::first_end(keys, k);
    let b = straight::second_end(keys, k);
    Seen {
        first: lab[a] == l,
        second: lab[b] == l,
        from: spot_at(pts, s, a),
        to: spot_at(pts, s, b),
    }
}

// Point i so.
pub fn seen_point(pts: &[i32; NUMBERS], lab: &[usize; POINTS], s: Side, l: usize, i: usize) -> Seen
    requires { i < straight_bound }
    ensures { result ≡ seen (view pts.now [] lab.now s l) i i }
{
    let p = spot_at(pts, s, i);
    Seen {
        first: lab[i] == l,
        second: lab[i] == l,
        from: p,
        to: p,
    }
}

// Edge k is along the bars that move to this side.
pub fn is_level(pts: &[i32; NUMBERS], keys: &[usize; POINTS], s: Side, k: usize) -> bool
    requires { (k < straight_bound) × (get_or keys.now k 0 < key_bound) }
    ensures { result ≡ level_at s pts.now keys.now k }
{
    let p = spot_at(pts, s, straight::first_end(keys, k));
    let q = spot_at(pts, s, straight::second_end(keys, k));
    p.across == q.across
}

pub fn is_ahead(e: Seen) -> bool
    ensures { result ≡ ahead_of e }
{
    (e.first & (e.from.across < e.to.across)) | (e.second & (e.to.across < e.from.across))
}

pub fn is_behind(e: Seen) -> bool
    ensures { result ≡ behind_of e }
{
    (e.first & (e.to.across < e.from.across)) | (e.second & (e.from.across < e.to.across))
}

pub fn long(e: Seen) -> u64
    ensures { result ≡ long_of e }
{
    e.from.across.abs_diff(e.to.across)
}
