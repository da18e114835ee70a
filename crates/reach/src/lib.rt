// How far a bar may move.
#![tactic(auto)]

ghost use Rattle.std.specs.Prelude.{◌≡◌, ◌≤◌};
ghost use Rattle.straight.specs.Table.{straight_bound, Small};
ghost use Rattle.turned.specs.Turned.{face};
ghost use Rattle.reach.specs.Passing.{own_of, front_of, low_of, high_of, ends_at, seen_by, is_far};
ghost use Rattle.reach.specs.Passing.{exempt, past, past_points, past_edges, past_face, past_macros, reached, way_of};
ghost use Rattle.reach.specs.Hopeless.{hopeless, Alike, Near};

use plane::{Macro, Weights};
use slide::Side;
use straight::{NUMBERS, POINTS};
use turned::{Seen, Spot};

// A bar that may move to a side: the label of its points, its first and last spot, the shortest edge ahead, and where the box that it
// sweeps by that much ends.
#[derive(Clone, Copy)]
pub struct Bar {
    pub side: Side,
    pub label: usize,
    pub first: Spot,
    pub last: Spot,
    pub most: u64,
    pub top: u64,
}

// The way of a bar: where it meets the first thing, and whether nothing bars it as far as the shortest edge.
#[derive(Clone, Copy)]
pub struct Way {
    pub stop: u64,
    pub free: bool,
}

// How many points, edges and pins there are, and the weights.
#[derive(Clone, Copy)]
pub struct Size {
    pub points: usize,
    pub edges: usize,
    pub pins: usize,
    pub weights: Weights,
}

// Of the bar, or hanging from it.
fn is_own(e: Seen) -> bool
    ensures { result ≡ own_of e }
{
    if e.from.across == e.to.across {
        e.first & e.second
    } else {
        e.first | e.second
    }
}

// It stands ahead of the bar, or across it: a box that grows far enough meets it.
fn is_in_front(bar: Bar, e: Seen) -> bool
    ensures { result ≡ front_of bar e }
{
    (e.from.along.min(e.to.along) <= bar.last.along)
        & ((bar.first.along <= e.from.along.max(e.to.along))
            & (bar.first.across <= e.from.across.max(e.to.across)))
}

// Where the box swept to the end of the shortest edge meets it: the box of these two spots.
fn low_corner(bar: Bar, e: Seen) -> Spot
    ensures { result ≡ low_of bar e }
{
    Spot {
        along: e.from.along.min(e.to.along).max(bar.first.along),
        across: e.from.across.min(e.to.across).max(bar.first.across),
    }
}

fn high_corner(bar: Bar, e: Seen) -> Spot
    ensures { result ≡ high_of bar e }
{
    Spot {
        along: e.from.along.max(e.to.along).min(bar.last.along),
        across: e.from.across.max(e.to.across).min(bar.top),
    }
}

// The edge is a shortest one ahead, and c its far end.
fn ends_at(e: Seen, most: u64, c: Spot) -> bool
    ensures { result ≡ ends_at e most c }
{
    let far = if e.first { e.to } else { e.from };
    turned::is_ahead(e) & (turned::long(e) == most) & (c == far)
}

fn is_far_end(
    pts: &[i32; NUMBERS],
    keys: &[usize; POINTS],
    e: usize,
    lab: &[usize; POINTS],
    bar: Bar,
    c: Spot,
) -> bool
    requires { (e ≤ straight_bound) × (Small keys.now) }
    ensures { result ≡ is_far (seen_by pts.now keys.now lab.now bar) e bar.most c }
{
    for k in 0..e {
        let t = turned::seen_edge(pts, keys, lab, bar.side, bar.label, k);
        if ends_at(t, bar.most, c) {
            return true;
        }
    }
    false
}

// It meets the box in such a far end and nowhere else.
fn is_exempt(
    pts: &[i32; NUMBERS],
    keys: &[usize; POINTS],
    e: usize,
    lab: &[usize; POINTS],
    bar: Bar,
    t: Seen,
) -> bool
    requires { (e ≤ straight_bound) × (Small keys.now) }
    ensures { result ≡ exempt (seen_by pts.now keys.now lab.now bar) e bar t }
{
    let c = low_corner(bar, t);
    c == high_corner(bar, t) && is_far_end(pts, keys, e, lab, bar, c)
}

// The way past an edge, or past a point as the edge of it and itself.
fn past(
    pts: &[i32; NUMBERS],
    keys: &[usize; POINTS],
    e: usize,
    lab: &[usize; POINTS],
    bar: Bar,
    t: Seen,
    w: Way,
) -> Way
    requires { (e ≤ straight_bound) × (Small keys.now) }
    ensures { result ≡ past (seen_by pts.now keys.now lab.now bar) e bar t w }
{
    if is_own(t) | !is_in_front(bar, t) {
        return w;
    }
    let d = t
        .from
        .across
        .min(t.to.across)
        .saturating_sub(bar.first.across);
    let stop = w.stop.min(d);
    if w.free & (d <= bar.most) {
        let free = is_exempt(pts, keys, e, lab, bar, t);
        Way { stop, free }
    } else {
        Way { stop, ..w }
    }
}

// Something bars the way so near that the bar moves by less than `need`.
fn is_hopeless(w: Way, need: u64) -> bool
    ensures { result ≡ hopeless need w }
{
    !w.free & (w.stop <= need)
}

// The rest of the way is not looked at once it is hopeless.
fn past_points(
    pts: &[i32; NUMBERS],
    keys: &[usize; POINTS],
    z: Size,
    lab: &[usize; POINTS],
    bar: Bar,
    need: u64,
    w: Way,
) -> Way
    requires { ((z.points ≤ straight_bound) × (z.edges ≤ straight_bound)) × (Small keys.now) }
    ensures { Alike need w result (past_points (seen_by pts.now keys.now lab.now bar) z.points
        z.edges bar w) }
{
    let mut way = w;
    for i in 0..z.points {
        if is_hopeless(way, need) {
            return way;
        }
        let t = turned::seen_point(pts, lab, bar.side, bar.label, i);
        way = past(pts, keys, z.edges, lab, bar, t, way);
    }
    way
}

fn past_edges(
    pts: &[i32; NUMBERS],
    keys: &[usize; POINTS],
    z: Size,
    lab: &[usize; POINTS],
    bar: Bar,
    need: u64,
    w: Way,
) -> Way
    requires { ((z.points ≤ straight_bound) × (z.edges ≤ straight_bound)) × (Small keys.now) }
    ensures { Alike need w result (past_edges (seen_by pts.now keys.now lab.now bar) z.edges
        bar w) }
{
    let mut way = w;
    for k in 0..z.edges {
        if is_hopeless(way, need) {
            return way;
        }
        let t = turned::seen_edge(pts, keys, lab, bar.side, bar.label, k);
        way = past(pts, keys, z.edges, lab, bar, t, way);
    }
    way
}

// The way past a macro: the box may touch it and no more.
fn past_macro(bar: Bar, m: Macro, w: Way) -> Way
    ensures { result ≡ past_face bar (face bar.side m) w }
{
    let f = turned::face_of(bar.side, m);
    if (f.starts < bar.last.along) & ((bar.first.along < f.finishes) & (bar.first.across < f.far)) {
        let d = (f.near + 1).saturating_sub(bar.first.across);
        Way {
            stop: w.stop.min(d),
            free: w.free & (bar.most < d),
        }
    } else {
        w
    }
}

fn past_macros(macros: &[i32], bar: Bar, need: u64, w: Way) -> Way
    ensures { Alike need w result (past_macros macros.now bar w) }
{
    let mut way = w;
    for i in 0..macros.len() / 4 {
        if is_hopeless(way, need) {
            return way;
        }
        way = past_macro(bar, clear::macro_at(macros, i), way);
    }
    way
}

// To the end of the shortest edge if nothing bars that, else to one before the first thing that is met. Where that is below `need`, some
// number below it: no more is asked of a move that cannot be the best.
pub fn reach(
    pts: &[i32; NUMBERS],
    keys: &[usize; POINTS],
    z: Size,
    lab: &[usize; POINTS],
    macros: &[i32],
    bar: Bar,
    need: u64,
) -> u64
    requires { ((z.points ≤ straight_bound) × (z.edges ≤ straight_bound)) × (Small keys.now) }
    ensures near { Near need result (reached bar (way_of (seen_by pts.now keys.now lab.now bar) z.points
        z.edges macros.now bar)) }
    ensures upper_bound { result ≤ bar.most }
{
    let start = Way {
        stop: bar.most,
        free: true,
    };
    let w = past_macros(macros, bar, need, start);
    let v = past_points(pts, keys, z, lab, bar, need, w);
    let u = past_edges(pts, keys, z, lab, bar, need, v);
    if u.free {
        bar.most
    } else {
        u.stop.saturating_sub(1)
    }
}
