// Capacitance and delay, down the rooted tree.
#![tactic(auto)]

mod child; // child.rt: the children of a point

ghost use Rattle.std.specs.Prelude.{◌≡◌, ◌<◌, ◌≤◌};
ghost use Rattle.tree.specs.Table.{tree_bound};
ghost use Rattle.floats.specs.Float.{whole};
ghost use Rattle.elmore.specs.Elmore.{edge_value, with_child, child_delay, capacitance, delays};
ghost use Rattle.elmore.specs.Table.{hung, apart_in, load_in, stored};
ghost use Rattle.elmore.specs.Memo.{Inside, visit_number, Memo};

use crate::child::child_at;
use floats::Technology;
use tree::{NUMBERS, POINTS};

// A point on the way down the rooted tree: its parent, its number, and how many steps further down there may be points.
#[derive(Clone, Copy)]
pub struct Visit {
    pub up: usize,
    pub point: usize,
    pub left: usize,
}

// An edge's resistance or capacitance: the technology's number for a unit times the edge's length.
fn edge_value(unit: f64, length: u64) -> f64
    ensures { result ≡ edge_value unit length }
{
    unit * std::num::nearest_u64_to_f64(length)
}

// A sum of capacitances with one child more.
fn with_child(sum: f64, child: f64, edge: f64) -> f64
    ensures { result ≡ with_child sum child edge }
{
    sum + (child + edge)
}

// A child's delay.
#[tactic(auto, using(crate::proofs::TableLaws::half_bits))]
fn child_delay(parent: f64, resistance: f64, edge: f64, child: f64) -> f64
    ensures { result ≡ child_delay parent resistance edge child }
{
    parent + resistance * (edge * 0.5 + child)
}

// The plain length of the edge of a and b.
fn length(pts: &[i32; NUMBERS], a: usize, b: usize) -> u64
    requires { (a < tree_bound) × (b < tree_bound) }
    ensures { result ≡ apart_in pts.now a b }
{
    plane::distance(plane::place_at(pts, a), plane::place_at(pts, b))
}

fn load(loads: &[u64; POINTS], p: usize) -> f64
    requires { p < tree_bound }
    ensures { result ≡ whole (load_in loads.now p) }
{
    std::num::nearest_u64_to_f64(loads[p])
}

// A sum of capacitances at p with its child c more, whose own capacitance is known.
fn add_child(pts: &[i32; NUMBERS], t: Technology, p: usize, c: usize, sum: f64, child: f64) -> f64
    requires { (p < tree_bound) × (c < tree_bound) }
    ensures { result ≡ with_child sum child (edge_value t.capacitance (apart_in pts.now p c)) }
{
    with_child(sum, child, edge_value(t.capacitance, length(pts, p, c)))
}

// The delay of the child c of p, where the delay is d, from the child's capacitance.
fn delay_below(pts: &[i32; NUMBERS], t: Technology, p: usize, c: usize, d: f64, child: f64) -> f64
    requires { (p < tree_bound) × (c < tree_bound) }
    ensures { result ≡ child_delay d (edge_value t.resistance (apart_in pts.now p c))
        (edge_value t.capacitance (apart_in pts.now p c)) child }
{
    let n = length(pts, p, c);
    child_delay(
        d,
        edge_value(t.resistance, n),
        edge_value(t.capacitance, n),
        child,
    )
}

// The number of a visit: no other's of its point, and not 0.
fn visit_number(v: Visit) -> u32
    requires { Inside v }
    ensures { result ≡ visit_number v.up v.left }
{
    (v.up * (POINTS + 1) + v.left + 1) as u32
}

// The capacitance of a point with all that hangs from it. It is held, with the number of its visit, for whoever asks again on that visit.
// The steps left below it fall at each call.
pub fn capacitance(
    pts: &[i32; NUMBERS],
    keys: &[usize; POINTS],
    e: usize,
    loads: &[u64; POINTS],
    t: Technology,
    v: Visit,
    held: &mut [f64; POINTS],
    whose: &mut [u32; POINTS],
) -> f64
    requires e_le_tree_bound { (e ≤ tree_bound) × Inside v }
    requires memo { Memo pts.now keys.now e loads.now t held.old whose.old }
    ensures value { result ≡ capacitance (apart_in pts.now) (load_in loads.now) t v.point
        (hung keys.now e v.left v.up v.point) }
    ensures memo_2 { Memo pts.now keys.now e loads.now t held.new whose.new }
{
    let p = v.point;
    let number = visit_number(v);
    if whose[p] == number {
        return held[p];
    }
    let mut sum = load(loads, p);
    if v.left == 0 {
        return sum;
    }
    let left = v.left - 1;
    for k in 0..e {
        if let Some(c) = child_at(keys, k, v.up, p) {
            let w = Visit {
                up: p,
                point: c,
                left,
            };
            let child = capacitance(pts, keys, e, loads, t, w, held, whose);
            sum = add_child(pts, t, p, c, sum, child);
        }
    }
    held[p] = sum;
    whose[p] = number;
    sum
}

// The delays of all that hangs from a point whose delay is d, each at its point's number. The steps left below it fall at each call.
pub fn lay(
    pts: &[i32; NUMBERS],
    keys: &[usize; POINTS],
    e: usize,
    loads: &[u64; POINTS],
    t: Technology,
    v: Visit,
    d: f64,
    held: &mut [f64; POINTS],
    whose: &mut [u32; POINTS],
    table: &mut [f64; POINTS],
)
    requires e_le_tree_bound { (e ≤ tree_bound) × Inside v }
    requires memo { Memo pts.now keys.now e loads.now t held.old whose.old }
    ensures table_after { table.new ≡ stored (delays (apart_in pts.now) (load_in loads.now) t v.point d
        (hung keys.now e v.left v.up v.point)) table.old }
    ensures memo_2 { Memo pts.now keys.now e loads.now t held.new whose.new }
{
    let p = v.point;
    if v.left == 0 {
        return;
    }
    let left = v.left - 1;
    for k in 0..e {
        if let Some(c) = child_at(keys, k, v.up, p) {
            let w = Visit {
                up: p,
                point: c,
                left,
            };
            let child = capacitance(pts, keys, e, loads, t, w, held, whose);
            let f = delay_below(pts, t, p, c, d, child);
            table[c] = f;
            lay(pts, keys, e, loads, t, w, f, held, whose, table);
        }
    }
}
