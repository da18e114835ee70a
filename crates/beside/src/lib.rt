// Vertices of the graph beside the tree, and the candidates with them.
//
// Roots and parents with the tree's own vertices as sources: the root of a vertex beside the tree is the tree point v that it is joined to,
// and its way to the root is the way that is laid.
#![tactic(auto)]

ghost use Rattle.std.specs.Prelude.{◌≡◌, true, List, ℕ, ◌*◌, ◌≤◌, ◌<◌, length, get_or};
ghost use Rattle.plane.specs.Flat.{place_at, macros_of};
ghost use Rattle.plane.specs.Rank.{InOrder};
ghost use Rattle.forest.specs.Bounds.{point_bound};
ghost use Rattle.forest.specs.Edges.{entries, Below, FirstBelow};
ghost use Rattle.forest.specs.Labels.{Low};
ghost use Rattle.forest.specs.Parents.{way_after, Nearing};
ghost use Rattle.lists.specs.Turns.{turns};
ghost use Rattle.tree.specs.Table.{tree_bound, pair_bound, Small, Within};
ghost use Rattle.tree.specs.Table as table;
ghost use Rattle.longest.specs.Longest.{cut_of, longest};
ghost use Rattle.longest.specs.Hung.{ties, Hanging, Spanned};
ghost use Rattle.bounds.specs.Carried.{Held, Was};
ghost use Rattle.beside.specs.Beside.{is_point, sources_from, take_seat, Seated, on_way, free, weighed, offer, offers, search, chosen_of};

use candidates::{Best, candidate};
use exchanges::exchange;
use longest::UNKNOWN;
use plane::{Place, Weights};
use tree::{NUMBERS, POINTS};

// Vertices of the graph, and the numbers of their places.
pub const VERTICES: usize = forest::POINTS;

pub const VERTEX_NUMBERS: usize = VERTICES * 2;

// The candidate that a round takes: on the tree its point is the number of a tree point, beside it that of a vertex. With gain 0 there is
// none.
#[derive(Clone, Copy)]
pub struct Choice {
    pub beside: bool,
    pub best: Best,
}

// Whether p is the place of a tree point.
#[tactic(auto, unfolding(crate::specs::Beside::is_point))]
fn is_point(pts: &[i32; NUMBERS], n: usize, p: Place) -> bool
    requires n_le_tree_bound { n ≤ tree_bound }
    requires n_in_bounds { (n * 2 ≤ length pts.now) × (InOrder pts.now n) }
    ensures { result ≡ is_point pts.now n p }
{
    exchange::stands(pts, n, plane::rank(pts, n, p), p)
}

// The vertices that are tree points, in order; how many they are.
pub fn sources(
    pts: &[i32; NUMBERS],
    n: usize,
    vertices: &[i32; VERTEX_NUMBERS],
    v: usize,
    source: &mut [usize; VERTICES],
) -> usize
    requires n_le_tree_bound { (n ≤ tree_bound) × (v ≤ point_bound) }
    requires n_in_bounds { (n * 2 ≤ length pts.now) × (InOrder pts.now n) }
    requires source_len { length source.old ≡ point_bound }
    ensures result_after { entries source.new 0 result ≡ sources_from pts.now n vertices.now 0 v }
    ensures upper_bound { (result ≤ point_bound) × (FirstBelow source.new result point_bound) }
{
    let mut c = 0;
    for i in 0..v {
        if is_point(pts, n, plane::place_at(vertices, i)) {
            source[c] = i;
            c += 1;
        }
    }
    c
}

// For each vertex the number of its root among the tree's points.
pub fn seats(
    pts: &[i32; NUMBERS],
    n: usize,
    vertices: &[i32; VERTEX_NUMBERS],
    v: usize,
    root: &[usize; VERTICES],
    seat: &mut [usize; VERTICES],
)
    requires n_lt_tree_bound { (n < tree_bound) × (v ≤ point_bound) }
    requires n_in_bounds { (n * 2 ≤ length pts.now) × (InOrder pts.now n) }
    requires below { Below point_bound root.now }
    ensures { seat.new ≡ turns (take_seat pts.now n vertices.now root.now) 0 v
        seat.old }
{
    for i in 0..v {
        seat[i] = plane::rank(pts, n, plane::place_at(vertices, root[i]));
    }
}

// Whether s is the place of a vertex after u on its way to its root. The distance falls with each call.
fn on_way(
    vertices: &[i32; VERTEX_NUMBERS],
    far: &[u64; VERTICES],
    up: &[usize; VERTICES],
    u: usize,
    s: Place,
) -> bool
    requires { (Nearing far.now up.now) × (u < point_bound) }
    ensures { result ≡ on_way vertices.now s (way_after far.now up.now u) }
{
    let y = up[u];
    y < VERTICES
        && (plane::is_same_place(s, plane::place_at(vertices, y))
            || on_way(vertices, far, up, y, s))
}

// Whether the vertex u, beside the tree, sees a or b, and s is the place of no other tree point and of none on the way.
#[tactic(auto, unfolding(crate::specs::Beside::free))]
fn is_free(
    pts: &[i32; NUMBERS],
    n: usize,
    macros: &[i32],
    vertices: &[i32; VERTEX_NUMBERS],
    far: &[u64; VERTICES],
    up: &[usize; VERTICES],
    a: usize,
    b: usize,
    u: usize,
    s: Place,
) -> bool
    requires a_lt_tree_bound { ((a < tree_bound) × (b < tree_bound)) × ((u < point_bound) × (n ≤ tree_bound)) }
    requires nearing { Nearing far.now up.now }
    ensures { result ≡ free pts.now n (macros_of macros.now) vertices.now far.now
        up.now a b u s }
{
    let p = plane::place_at(pts, a);
    let q = plane::place_at(pts, b);
    let r = plane::place_at(vertices, u);
    triples::sees(macros, p, q, r)
        && !triples::is_dropped(pts, n, a, b, a, s)
        && !on_way(vertices, far, up, u, s)
}

// The best so far, or the candidate of edge k from a to b and the vertex u, whose L is l.
fn weigh(
    w: Weights,
    pts: &[i32; NUMBERS],
    n: usize,
    macros: &[i32],
    vertices: &[i32; VERTEX_NUMBERS],
    far: &[u64; VERTICES],
    up: &[usize; VERTICES],
    a: usize,
    b: usize,
    k: usize,
    u: usize,
    l: usize,
    long: u64,
    c: Best,
) -> Best
    requires a_lt_tree_bound { ((a < tree_bound) × (b < tree_bound)) × ((u < point_bound) × (n ≤ tree_bound)) }
    requires low { (Low far.now) × (Nearing far.now up.now) }
    ensures { result ≡ weighed w pts.now n (macros_of macros.now) vertices.now far.now
        up.now a b k u l long c }
{
    let r = plane::place_at(vertices, u);
    let s = plane::middle_place(plane::place_at(pts, a), plane::place_at(pts, b), r);
    let d = plane::cost(w, s, r) + far[u];
    let gain = long.saturating_sub(d);
    if c.gain < gain && is_free(pts, n, macros, vertices, far, up, a, b, u, s) {
        Best {
            gain,
            edge: k,
            point: u,
            cut: l,
        }
    } else {
        c
    }
}

// The candidate of edge k from a to b and the vertex u beside the tree, whose root is the tree point v and whose L is l.
fn offer(
    w: Weights,
    pts: &[i32; NUMBERS],
    n: usize,
    macros: &[i32],
    el: &[u64; POINTS],
    vertices: &[i32; VERTEX_NUMBERS],
    far: &[u64; VERTICES],
    up: &[usize; VERTICES],
    a: usize,
    b: usize,
    k: usize,
    u: usize,
    v: usize,
    l: usize,
    c: Best,
) -> Best
    requires a_lt_tree_bound { ((a < tree_bound) × (b < tree_bound)) × ((u < point_bound) × ((l < tree_bound) × (n ≤ tree_bound))) }
    requires low { (Low far.now) × (Nearing far.now up.now) }
    ensures { (t seat : List ℕ) → 0 < get_or far.now u 0 → v ≡ get_or seat u 0 → l ≡ cut_of el.now t a b v
        → result ≡ offer w pts.now n (macros_of macros.now) el.now t vertices.now
        far.now up.now seat a b k u c }
{
    if (v == a) | ((v == b) | (l == k)) {
        return c;
    }
    let long = el[l];
    if long.saturating_sub(c.gain) <= far[u] {
        return c;
    }
    weigh(w, pts, n, macros, vertices, far, up, a, b, k, u, l, long, c)
}

fn offers(
    w: Weights,
    pts: &[i32; NUMBERS],
    n: usize,
    macros: &[i32],
    keys: &[usize; POINTS],
    e: usize,
    el: &[u64; POINTS],
    most: u64,
    onto: &[usize; POINTS],
    link: &[usize; POINTS],
    turn: &[usize; POINTS],
    vertices: &[i32; VERTEX_NUMBERS],
    v: usize,
    far: &[u64; VERTICES],
    up: &[usize; VERTICES],
    seat: &[usize; VERTICES],
    k: usize,
    c: Best,
) -> Best
    requires k_lt_e { ((k < e) × (e ≤ tree_bound)) × ((n ≤ tree_bound) × (Within n keys.now)) }
    requires v_le_point_bound { (v ≤ point_bound) × (Seated seat.now v n) }
    requires v_in_bounds { (v * 2 ≤ length vertices.now) × (InOrder vertices.now v) }
    requires low { (Low far.now) × (Nearing far.now up.now) }
    requires low_2 { (table.Low most el.now) × (Hanging keys.now el.now e n (ties onto.now link.now turn.now)) }
    ensures { result ≡ offers w pts.now n (macros_of macros.now) keys.now el.now
        (longest keys.now el.now e n) vertices.now v far.now up.now
        seat.now k c }
{
    let a = keys[k] / POINTS;
    let b = keys[k] % POINTS;
    let m = near::box_of(plane::place_at(pts, a), plane::place_at(pts, b));
    if most <= c.gain {
        return c;
    }
    let last = near::to(w, m, vertices, v, most - c.gain);
    let first = near::from(w, m, vertices, v, most - c.gain);
    let mut row = [UNKNOWN; POINTS];
    longest::start(el, onto, link, turn, a, b, &mut row);
    let mut found = c;
    for u in first..last {
        let f = far[u];
        if 0 < f && triples::may_gain(w, m, plane::place_at(vertices, u), f, found.gain, most) {
            let s = seat[u];
            let l = longest::cut_at(el, onto, link, turn, s, &mut row);
            found = offer(
                w, pts, n, macros, el, vertices, far, up, a, b, k, u, s, l, found,
            );
        }
    }
    found
}

// The best candidate with a vertex beside the tree whose gain is above that of c; c, where there is none.
fn search(
    w: Weights,
    pts: &[i32; NUMBERS],
    n: usize,
    macros: &[i32],
    keys: &[usize; POINTS],
    e: usize,
    el: &[u64; POINTS],
    most: u64,
    onto: &[usize; POINTS],
    link: &[usize; POINTS],
    turn: &[usize; POINTS],
    vertices: &[i32; VERTEX_NUMBERS],
    v: usize,
    far: &[u64; VERTICES],
    up: &[usize; VERTICES],
    seat: &[usize; VERTICES],
    c: Best,
) -> Best
    requires e_le_tree_bound { (e ≤ tree_bound) × ((n ≤ tree_bound) × (Within n keys.now)) }
    requires v_le_point_bound { (v ≤ point_bound) × (Seated seat.now v n) }
    requires v_in_bounds { (v * 2 ≤ length vertices.now) × (InOrder vertices.now v) }
    requires low { (Low far.now) × (Nearing far.now up.now) }
    requires low_2 { (table.Low most el.now) × (Hanging keys.now el.now e n (ties onto.now link.now turn.now)) }
    ensures { result ≡ search w pts.now n (macros_of macros.now) keys.now e el.now
        (longest keys.now el.now e n) vertices.now v far.now up.now
        seat.now c }
{
    let mut found = c;
    for k in 0..e {
        found = offers(
            w, pts, n, macros, keys, e, el, most, onto, link, turn, vertices, v, far, up, seat, k,
            found,
        );
    }
    found
}

// The candidate that a round takes: of those on the tree the best, unless one beside it gains more.
// The bounds of edges are those of the tree before, where it is known, and then those of this one.
pub fn found(
    w: Weights,
    known: bool,
    old: &[i32; NUMBERS],
    m: usize,
    before: &[usize; POINTS],
    f: usize,
    pts: &[i32; NUMBERS],
    n: usize,
    macros: &[i32],
    keys: &[usize; POINTS],
    e: usize,
    vertices: &[i32; VERTEX_NUMBERS],
    v: usize,
    far: &[u64; VERTICES],
    up: &[usize; VERTICES],
    seat: &[usize; VERTICES],
    bound: &mut [u64; POINTS],
) -> Choice
    requires spanned { Spanned keys.now e n }
    requires v_le_point_bound { (v ≤ point_bound) × (Seated seat.now v n) }
    requires n_in_bounds { (n * 2 ≤ length pts.now) × (InOrder pts.now n) }
    requires v_in_bounds { (v * 2 ≤ length vertices.now) × (InOrder vertices.now v) }
    requires low { (Low far.now) × (Nearing far.now up.now) }
    requires small { (Small pair_bound before.now) × (known ≡ true → Was w (macros_of macros.now) old.now m before.now f bound.old) }
    ensures value { result ≡ chosen_of w (macros_of macros.now) pts.now n keys.now e vertices.now v
        far.now up.now seat.now }
    ensures held { Held w (macros_of macros.now) pts.now n keys.now e bound.new }
{
    let mut el = [0u64; POINTS];
    let most = longest::costs(w, pts, keys, e, &mut el);
    let mut onto = [0usize; POINTS];
    let mut link = [0usize; POINTS];
    let mut turn = [0usize; POINTS];
    turn[0] = 1;
    longest::reached(keys, e, &mut onto, &mut link, &mut turn);
    bounds::renew(
        w, known, old, m, before, f, pts, n, macros, keys, e, &el, most, &onto, &link, &turn, bound,
    );
    let on = candidate::search(
        w, pts, n, macros, keys, e, &el, most, &onto, &link, &turn, bound,
    );
    let off = search(
        w, pts, n, macros, keys, e, &el, most, &onto, &link, &turn, vertices, v, far, up, seat, on,
    );
    if on.gain < off.gain {
        Choice {
            beside: true,
            best: off,
        }
    } else {
        Choice {
            beside: false,
            best: on,
        }
    }
}
