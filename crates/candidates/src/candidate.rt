// Candidates, and the one that a round takes.
ghost use Rattle.std.specs.Prelude.{◌≡◌, List, ℕ, ◌*◌, ◌≤◌, ◌<◌, length, get_or};
ghost use Rattle.plane.specs.Flat.{place_at, macros_of};
ghost use Rattle.plane.specs.Rank.{InOrder};
ghost use Rattle.tree.specs.Table.{tree_bound, first_end, second_end, Low, Within};
ghost use Rattle.longest.specs.Longest.{cut_of, longest};
ghost use Rattle.longest.specs.Hung.{ties, top_of, Tied, Told, Begun, Row, Hanging};
ghost use Rattle.near.specs.Box.{box_of};
ghost use Rattle.candidates.specs.Candidate.{best, weighed, offer, offers, search};
ghost use Rattle.candidates.specs.Bounded.{Bounded};

use crate::Best;
use longest::UNKNOWN;
use plane::{Macro, Weights};
use tree::{NUMBERS, POINTS};

// The best so far, or the candidate of edge k from a to b and the point u, whose L is l. What is clear is asked last: it looks at every
// macro.
fn weigh(
    w: Weights,
    pts: &[i32; NUMBERS],
    n: usize,
    macros: &[i32],
    a: usize,
    b: usize,
    k: usize,
    u: usize,
    l: usize,
    long: u64,
    c: Best,
) -> Best
    requires { ((a < tree_bound) × (b < tree_bound)) × ((u < tree_bound) × (n ≤ tree_bound)) }
    ensures { result ≡ weighed w pts.now n (macros_of macros.now) a b k u l long c }
{
    let r = tree::point_at(pts, u);
    let s = plane::middle_place(tree::point_at(pts, a), tree::point_at(pts, b), r);
    let d = plane::cost(w, s, r);
    let gain = long.saturating_sub(d);
    if c.gain < gain && triples::is_allowed(pts, n, macros, a, b, u, s) {
        Best {
            gain,
            edge: k,
            point: u,
            cut: l,
        }
    } else {
        c
    }
}

// The candidate of edge k from a to b, in the box m, and the point u, whose L is l.
fn offer(
    w: Weights,
    pts: &[i32; NUMBERS],
    n: usize,
    macros: &[i32],
    el: &[u64; POINTS],
    m: Macro,
    a: usize,
    b: usize,
    k: usize,
    u: usize,
    l: usize,
    c: Best,
) -> Best
    requires a_lt_tree_bound { ((a < tree_bound) × (b < tree_bound)) × ((u < tree_bound) × ((l < tree_bound) × (n ≤ tree_bound))) }
    requires m_value { m ≡ box_of (place_at pts.now a) (place_at pts.now b) }
    ensures { (t : List ℕ) → l ≡ cut_of el.now t a b u
        → result ≡ offer w pts.now n (macros_of macros.now) el.now t a b k u c }
{
    if u == a || u == b || l == k {
        return c;
    }
    let long = el[l];
    if triples::may_gain(w, m, tree::point_at(pts, u), 0, c.gain, long) {
        weigh(w, pts, n, macros, a, b, k, u, l, long, c)
    } else {
        c
    }
}

// The best so far with edge k and all points. Those that metal across alone makes too far are passed over.
fn offers(
    w: Weights,
    pts: &[i32; NUMBERS],
    n: usize,
    macros: &[i32],
    keys: &[usize; POINTS],
    e: usize,
    el: &[u64; POINTS],
    most: u64,
    onto: &[usize; POINTS],
    link: &[usize; POINTS],
    turn: &[usize; POINTS],
    k: usize,
    c: Best,
) -> Best
    requires k_lt_e { ((k < e) × (e ≤ tree_bound)) × ((n ≤ tree_bound) × (Within n keys.now)) }
    requires n_in_bounds { (n * 2 ≤ length pts.now) × (InOrder pts.now n) }
    requires low { (Low most el.now) × (Hanging keys.now el.now e n (ties onto.now link.now turn.now)) }
    ensures { result ≡ offers w pts.now n (macros_of macros.now) keys.now el.now
        (longest keys.now el.now e n) k c }
{
    let a = keys[k] / POINTS;
    let b = keys[k] % POINTS;
    let m = near::box_of(tree::point_at(pts, a), tree::point_at(pts, b));
    if most <= c.gain {
        return c;
    }
    let last = near::to(w, m, pts, n, most - c.gain);
    let first = near::from(w, m, pts, n, most - c.gain);
    let mut row = [UNKNOWN; POINTS];
    longest::start(el, onto, link, turn, a, b, &mut row);
    let mut found = c;
    for u in first..last {
        if triples::may_gain(w, m, tree::point_at(pts, u), 0, found.gain, most) {
            let l = longest::cut_at(el, onto, link, turn, u, &mut row);
            found = offer(w, pts, n, macros, el, m, a, b, k, u, l, found);
        }
    }
    found
}

// The best so far with edge k, which is sought only where its bound is above what is gained already. The bound is then what it gains.
fn ask(
    w: Weights,
    pts: &[i32; NUMBERS],
    n: usize,
    macros: &[i32],
    keys: &[usize; POINTS],
    e: usize,
    el: &[u64; POINTS],
    most: u64,
    onto: &[usize; POINTS],
    link: &[usize; POINTS],
    turn: &[usize; POINTS],
    bound: &mut [u64; POINTS],
    k: usize,
    c: Best,
) -> Best
    requires k_lt_e { ((k < e) × (e ≤ tree_bound)) × ((n ≤ tree_bound) × (Within n keys.now)) }
    requires n_in_bounds { (n * 2 ≤ length pts.now) × (InOrder pts.now n) }
    requires low { (Low most el.now) × (Hanging keys.now el.now e n (ties onto.now link.now turn.now)) }
    requires bounded { Bounded w pts.now n (macros_of macros.now) keys.now e el.now (longest keys.now el.now e n) n bound.old }
    ensures value { result ≡ offers w pts.now n (macros_of macros.now) keys.now el.now
        (longest keys.now el.now e n) k c }
    ensures bounded_2 { Bounded w pts.now n (macros_of macros.now) keys.now e el.now
        (longest keys.now el.now e n) n bound.new }
{
    if bound[k] <= c.gain {
        return c;
    }
    let own = offers(
        w,
        pts,
        n,
        macros,
        keys,
        e,
        el,
        most,
        onto,
        link,
        turn,
        k,
        Best::NONE,
    );
    bound[k] = own.gain;
    if c.gain < own.gain { own } else { c }
}

// The bound of edge k, raised to what it gains with the point s. The row is that of s.
fn raised(
    w: Weights,
    pts: &[i32; NUMBERS],
    n: usize,
    macros: &[i32],
    keys: &[usize; POINTS],
    el: &[u64; POINTS],
    onto: &[usize; POINTS],
    link: &[usize; POINTS],
    turn: &[usize; POINTS],
    s: usize,
    k: usize,
    row: &mut [u16; POINTS],
    g: u64,
) -> u64
    requires k_lt_tree_bound { ((k < tree_bound) × (s < n)) × ((n ≤ tree_bound) × (Within n keys.now)) }
    requires tied { (Tied (ties onto.now link.now turn.now)) × ((v : ℕ) → v < n → 0 < get_or turn.now v 0) }
    requires begun { Begun (ties onto.now link.now turn.now) row.old }
    ensures begun_2 { Begun (ties onto.now link.now turn.now) row.new }
    ensures by_index { (t : List ℕ) → Told el.now (ties onto.now link.now turn.now) t
        → Row el.now (ties onto.now link.now turn.now) (top_of t s) row.old
        → (Row el.now (ties onto.now link.now turn.now) (top_of t s) row.new)
        × (result ≡ (offer w pts.now n (macros_of macros.now) el.now t
        (first_end (get_or keys.now k 0)) (second_end (get_or keys.now k 0)) k s (best g 0 0 0)).gain) }
{
    let a = keys[k] / POINTS;
    let b = keys[k] % POINTS;
    let p = longest::cut_at(el, onto, link, turn, a, row);
    let q = longest::cut_at(el, onto, link, turn, b, row);
    let l = longest::shorter(el, p, q);
    let m = near::box_of(tree::point_at(pts, a), tree::point_at(pts, b));
    let c = offer(
        w,
        pts,
        n,
        macros,
        el,
        m,
        a,
        b,
        k,
        s,
        l,
        Best {
            gain: g,
            ..Best::NONE
        },
    );
    c.gain
}

// The bounds of all edges, raised to what they gain with the point s.
pub fn raise(
    w: Weights,
    pts: &[i32; NUMBERS],
    n: usize,
    macros: &[i32],
    keys: &[usize; POINTS],
    e: usize,
    el: &[u64; POINTS],
    onto: &[usize; POINTS],
    link: &[usize; POINTS],
    turn: &[usize; POINTS],
    s: usize,
    bound: &mut [u64; POINTS],
)
    requires e_le_tree_bound { ((e ≤ tree_bound) × (s < n)) × ((n ≤ tree_bound) × (Within n keys.now)) }
    requires hanging { Hanging keys.now el.now e n (ties onto.now link.now turn.now) }
    requires bounded { Bounded w pts.now n (macros_of macros.now) keys.now e el.now (longest keys.now el.now e n) s bound.old }
    ensures { Bounded w pts.now n (macros_of macros.now) keys.now e el.now
        (longest keys.now el.now e n) n bound.new }
{
    let mut tops = [UNKNOWN; POINTS];
    longest::row_of(el, onto, link, turn, s, &mut tops);
    for k in 0..e {
        bound[k] = raised(
            w, pts, n, macros, keys, el, onto, link, turn, s, k, &mut tops, bound[k],
        );
    }
}

// The best candidate on the tree, where no edge costs more than most.
pub fn search(
    w: Weights,
    pts: &[i32; NUMBERS],
    n: usize,
    macros: &[i32],
    keys: &[usize; POINTS],
    e: usize,
    el: &[u64; POINTS],
    most: u64,
    onto: &[usize; POINTS],
    link: &[usize; POINTS],
    turn: &[usize; POINTS],
    bound: &mut [u64; POINTS],
) -> Best
    requires e_le_tree_bound { (e ≤ tree_bound) × ((n ≤ tree_bound) × (Within n keys.now)) }
    requires n_in_bounds { (n * 2 ≤ length pts.now) × (InOrder pts.now n) }
    requires low { (Low most el.now) × (Hanging keys.now el.now e n (ties onto.now link.now turn.now)) }
    requires bounded { Bounded w pts.now n (macros_of macros.now) keys.now e el.now (longest keys.now el.now e n) n bound.old }
    ensures value { result ≡ search w pts.now n (macros_of macros.now) keys.now e el.now
        (longest keys.now el.now e n) }
    ensures bounded_2 { Bounded w pts.now n (macros_of macros.now) keys.now e el.now
        (longest keys.now el.now e n) n bound.new }
{
    let mut found = Best::NONE;
    for k in 0..e {
        found = ask(
            w, pts, n, macros, keys, e, el, most, onto, link, turn, bound, k, found,
        );
    }
    found
}
