// What edges cost, and the longest edge between points, from rows: what hangs on what, and L of an edge for each point.
#![tactic(auto)]

ghost use Rattle.std.specs.Prelude.{◌≡◌, List, ℕ, ◌+◌, ◌≤◌, ◌<◌, length, get_or, set};
ghost use Rattle.plane.specs.Cost.{cost_limit};
ghost use Rattle.lists.specs.Turns.{turns};
ghost use Rattle.tree.specs.Table.{tree_bound, pair_bound, first_end, second_end, Small, Low, Within};
ghost use Rattle.longest.specs.Longest.{edge_cost, measure, wins, longer, shorter, Reach, pass, reached, cut_of};
ghost use Rattle.longest.specs.Hung.{ties, top_of, Tied, Hung, Told, Paired, Begun, Fresh, Row, Climbed};

use plane::Weights;
use tree::{NUMBERS, POINTS};

// The number that stands for no edge.
pub const NONE: u16 = (POINTS - 1) as u16;

// What stands in a row where it is not known yet.
pub const UNKNOWN: u16 = POINTS as u16;

// What the edge k costs.
#[tactic(auto, unfolding(crate::specs::Longest::edge_cost))]
pub fn edge_cost(w: Weights, pts: &[i32; NUMBERS], keys: &[usize; POINTS], k: usize) -> u64
    requires { (k < tree_bound) × (Small pair_bound keys.now) }
    ensures { (result ≡ edge_cost w pts.now keys.now k) × (result < cost_limit) }
{
    let q = keys[k];
    plane::cost(
        w,
        tree::point_at(pts, q / POINTS),
        tree::point_at(pts, q % POINTS),
    )
}

// The costs of all edges, in a table of zeros; the greatest of them.
pub fn costs(
    w: Weights,
    pts: &[i32; NUMBERS],
    keys: &[usize; POINTS],
    e: usize,
    el: &mut [u64; POINTS],
) -> u64
    requires e_le_tree_bound { (e ≤ tree_bound) × (Small pair_bound keys.now) }
    requires low { Low 0 el.old }
    ensures el_after { el.new ≡ turns (measure w pts.now keys.now) 0 e el.old }
    ensures low_2 { Low result el.new }
{
    let mut most = 0;
    for k in 0..e {
        let d = edge_cost(w, pts, keys, k);
        el[k] = d;
        most = d.max(most);
    }
    most
}

// Whether the edge k is longer than l, or as long with a smaller number.
#[tactic(auto, unfolding(crate::specs::Longest::wins))]
fn wins(el: &[u64; POINTS], k: usize, l: usize) -> bool
    requires { (k < tree_bound) × (l < tree_bound) }
    ensures { result ≡ wins el.now k l }
{
    el[l] < el[k] || el[l] == el[k] && k < l
}

// Of two edges the one that wins.
#[tactic(auto, unfolding(crate::specs::Longest::longer))]
fn longer(el: &[u64; POINTS], k: usize, l: usize) -> usize
    requires { (k < tree_bound) × (l < tree_bound) }
    ensures { (result ≡ longer el.now k l) × (result < tree_bound) }
{
    if wins(el, k, l) { k } else { l }
}

// Of two edges the one that does not win.
#[tactic(auto, unfolding(crate::specs::Longest::shorter))]
pub fn shorter(el: &[u64; POINTS], k: usize, l: usize) -> usize
    requires { (k < tree_bound) × (l < tree_bound) }
    ensures { (result ≡ shorter el.now k l) × (result < tree_bound) }
{
    if wins(el, k, l) { l } else { k }
}

// The point v hangs on p by the edge k, at turn c.
fn hang(
    v: usize,
    p: usize,
    k: usize,
    c: usize,
    onto: &mut [usize; POINTS],
    link: &mut [usize; POINTS],
    turn: &mut [usize; POINTS],
)
    requires { v < tree_bound }
    ensures { ties onto.new link.new turn.new
        ≡ ties (set onto.old v p) (set link.old v k) (set turn.old v c) }
{
    onto[v] = p;
    link[v] = k;
    turn[v] = c;
}

// The edge k from a to b hangs one of them on the other, where that one hangs already; c have hung so far. How many have then.
fn attach(
    a: usize,
    b: usize,
    k: usize,
    c: usize,
    onto: &mut [usize; POINTS],
    link: &mut [usize; POINTS],
    turn: &mut [usize; POINTS],
) -> usize
    requires { ((a < tree_bound) × (b < tree_bound)) × (c ≤ pair_bound + pair_bound) }
    ensures lower_bound { (c ≤ result) × (result ≤ c + 1) }
    ensures by_index { (ks el : List ℕ) (e n : ℕ) (r : Reach) → n ≤ tree_bound → e ≤ tree_bound → Within n ks → k < e
        → a ≡ first_end (get_or ks k 0) → b ≡ second_end (get_or ks k 0)
        → Hung ks el e n c (ties onto.old link.old turn.old) r
        → (Hung ks el e n result (ties onto.new link.new turn.new) (pass ks el n k r))
        × (result ≡ c → pass ks el n k r ≡ r) }
{
    match (turn[a], turn[b]) {
        (0, 0) => c,
        (0, _) => {
            hang(a, b, k, c + 1, onto, link, turn);
            c + 1
        }
        (_, 0) => {
            hang(b, a, k, c + 1, onto, link, turn);
            c + 1
        }
        _ => c,
    }
}

// A pass over all edges; how many points hang after it.
fn pass(
    keys: &[usize; POINTS],
    e: usize,
    c: usize,
    onto: &mut [usize; POINTS],
    link: &mut [usize; POINTS],
    turn: &mut [usize; POINTS],
) -> usize
    requires { ((e ≤ tree_bound) × (Small pair_bound keys.now)) × (c ≤ pair_bound) }
    ensures lower_bound { (c ≤ result) × (result ≤ c + e) }
    ensures by_index { (el : List ℕ) (n : ℕ) (r : Reach) → n ≤ tree_bound → Within n keys.now
        → Hung keys.now el e n c (ties onto.old link.old turn.old) r
        → (Hung keys.now el e n result (ties onto.new link.new turn.new)
        (turns (pass keys.now el n) 0 e r))
        × (result ≡ c → turns (pass keys.now el n) 0 e r ≡ r) }
{
    let mut d = c;
    for k in 0..e {
        let q = keys[k];
        d = attach(q / POINTS, q % POINTS, k, d, onto, link, turn);
    }
    d
}

// Passes until one hangs nothing, e at most; how many points hang then.
pub fn reached(
    keys: &[usize; POINTS],
    e: usize,
    onto: &mut [usize; POINTS],
    link: &mut [usize; POINTS],
    turn: &mut [usize; POINTS],
) -> usize
    requires { (e < tree_bound) × (Small pair_bound keys.now) }
    ensures { (el : List ℕ) (n : ℕ) (r : Reach) → n ≤ tree_bound → Within n keys.now
        → Hung keys.now el e n 1 (ties onto.old link.old turn.old) r
        → Hung keys.now el e n result (ties onto.new link.new turn.new)
        (reached keys.now el e n r) }
{
    let mut c = 1;
    for _ in 0..e {
        let d = pass(keys, e, c, onto, link, turn);
        if d == c {
            return c;
        }
        c = d;
    }
    c
}

// The row of x at x and at all that it hangs on.
fn climb(
    el: &[u64; POINTS],
    onto: &[usize; POINTS],
    link: &[usize; POINTS],
    turn: &[usize; POINTS],
    x: usize,
    row: &mut [u16; POINTS],
)
    requires { (Tied (ties onto.now link.now turn.now)) × ((0 < get_or turn.now x 0) × (length row.old ≡ tree_bound)) }
    ensures begun { Begun (ties onto.now link.now turn.now) row.new }
    ensures by_index { (t : List ℕ) → Told el.now (ties onto.now link.now turn.now) t
        → Fresh (ties onto.now link.now turn.now) row.old
        → Climbed (ties onto.now link.now turn.now) t x row.new }
{
    row[x] = NONE;
    let mut l = POINTS - 1;
    let mut v = x;
    // Kept: v goes from each point to the one that it hangs on, which no range gives.
    while 1 < turn[v] {
        l = longer(el, l, link[v]);
        v = onto[v];
        row[v] = l as u16;
    }
}

// The row of the point x, the longest edges from it, at x and at all that it hangs on.
pub fn row_of(
    el: &[u64; POINTS],
    onto: &[usize; POINTS],
    link: &[usize; POINTS],
    turn: &[usize; POINTS],
    x: usize,
    row: &mut [u16; POINTS],
)
    requires { (Tied (ties onto.now link.now turn.now)) × ((0 < get_or turn.now x 0) × (length row.old ≡ tree_bound)) }
    ensures begun { Begun (ties onto.now link.now turn.now) row.new }
    ensures by_index { (t : List ℕ) → Told el.now (ties onto.now link.now turn.now) t
        → Fresh (ties onto.now link.now turn.now) row.old
        → Row el.now (ties onto.now link.now turn.now) (top_of t x) row.new }
{
    climb(el, onto, link, turn, x, row);
}

// The row of the edge from a to b at both of them and at all that they hang on.
pub fn start(
    el: &[u64; POINTS],
    onto: &[usize; POINTS],
    link: &[usize; POINTS],
    turn: &[usize; POINTS],
    a: usize,
    b: usize,
    row: &mut [u16; POINTS],
)
    requires { (Tied (ties onto.now link.now turn.now))
        × (((0 < get_or turn.now a 0) × (0 < get_or turn.now b 0)) × (length row.old ≡ tree_bound)) }
    ensures begun { Begun (ties onto.now link.now turn.now) row.new }
    ensures by_index { (t : List ℕ) → Told el.now (ties onto.now link.now turn.now) t
        → Fresh (ties onto.now link.now turn.now) row.old
        → Paired (ties onto.now link.now turn.now) a b
        → Row el.now (ties onto.now link.now turn.now)
        (cut_of el.now t a b) row.new }
{
    if turn[a] < turn[b] {
        climb(el, onto, link, turn, a, row);
        row[b] = NONE;
    } else {
        climb(el, onto, link, turn, b, row);
        row[a] = NONE;
    }
}

// The row at v, filled in at v and at what v hangs on where it is not known. The turn falls with each call.
pub fn cut_at(
    el: &[u64; POINTS],
    onto: &[usize; POINTS],
    link: &[usize; POINTS],
    turn: &[usize; POINTS],
    v: usize,
    row: &mut [u16; POINTS],
) -> usize
    requires { (Tied (ties onto.now link.now turn.now))
        × ((0 < get_or turn.now v 0) × (Begun (ties onto.now link.now turn.now) row.old)) }
    ensures upper_bound { (result < tree_bound) × (Begun (ties onto.now link.now turn.now) row.new) }
    ensures by_index { (f : ℕ → ℕ) → Row el.now (ties onto.now link.now turn.now) f
        row.old
        → (result ≡ f v) × (Row el.now (ties onto.now link.now turn.now) f row.new) }
{
    let x = usize::from(row[v]);
    if x < POINTS {
        return x;
    }
    let l = longer(el, cut_at(el, onto, link, turn, onto[v], row), link[v]);
    row[v] = l as u16;
    l
}
