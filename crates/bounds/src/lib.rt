// What a round leaves of the bounds of edges: which numbers the points of the tree before have in the tree of now, whether no longest edge
// between two of them has become longer, and the bounds of the edges that are still there.
#![tactic(auto)]

ghost use Rattle.std.specs.Prelude.{◌≡◌, true, List, ℕ, ◌≤◌, ◌<◌, length, get_or};
ghost use Rattle.std.specs.Option.{IfSome, unwrap_or};
ghost use Rattle.plane.specs.Cost.{cost};
ghost use Rattle.plane.specs.Flat.{place_at, macros_of};
ghost use Rattle.tree.specs.Table.{tree_bound, pair_bound, first_end, second_end, Small, Low, Within};
ghost use Rattle.longest.specs.Longest.{longest};
ghost use Rattle.longest.specs.Hung.{ties, tall, Tied, Told, Hanging};
ghost use Rattle.candidates.specs.Bounded.{Bounded};
ghost use Rattle.bounds.specs.Carried.{Numbered, Calm, Origins, Was, key_in};

use candidates::candidate;
use longest::UNKNOWN;
use plane::{Place, Weights};
use tree::{NUMBERS, POINTS};

// The i-th of m points stands at p.
fn is_next(old: &[i32; NUMBERS], m: usize, i: usize, p: Place) -> bool
    requires { m ≤ tree_bound }
    ensures { result ≡ true → (i < m) × (p ≡ place_at old.now i) }
{
    i < m && plane::is_same_place(p, tree::point_at(old, i))
}

// The numbers of the m points before among the n points of now, and the number of a further point of now, if there is one. None where a
// point before is not there, or more than one is new. Both are in the order of places, so one pass finds them.
pub fn numbers(
    old: &[i32; NUMBERS],
    m: usize,
    pts: &[i32; NUMBERS],
    n: usize,
    at: &mut [usize; POINTS],
) -> Option<Option<usize>>
    requires { ((m ≤ tree_bound) × (n ≤ tree_bound)) × ((length at.old ≡ tree_bound) × (Small tree_bound at.old)) }
    ensures small { Small tree_bound at.new }
    ensures numbered { IfSome result (λ fresh. IfSome fresh (λ j. j < n) × Numbered old.now m pts.now n (unwrap_or fresh n) at.new) }
{
    let mut fresh = None;
    let mut i = 0;
    for j in 0..n {
        if is_next(old, m, i, tree::point_at(pts, j)) {
            at[i] = j;
            i += 1;
        } else if fresh.is_some() {
            return None;
        } else {
            fresh = Some(j);
        }
    }
    if i == m { Some(fresh) } else { None }
}

// Whether x hangs on y.
fn hangs(onto: &[usize; POINTS], turn: &[usize; POINTS], x: usize, y: usize) -> bool
    requires { (x < tree_bound) × (y < tree_bound) }
    ensures { result ≡ true → (get_or onto.now x 0 ≡ y) × (get_or turn.now y 0 < get_or turn.now x 0) }
{
    onto[x] == y && turn[y] < turn[x]
}

// What the edge costs by which x hangs.
fn link_cost(el: &[u64; POINTS], link: &[usize; POINTS], x: usize) -> u64
    requires { (x < tree_bound) × (Small tree_bound link.now) }
    ensures { result ≡ get_or el.now (get_or link.now x 0) 0 }
{
    el[link[x]]
}

// What the longest edge between x and y costs, where neither hangs on the other.
fn long_cost(
    el: &[u64; POINTS],
    onto: &[usize; POINTS],
    link: &[usize; POINTS],
    turn: &[usize; POINTS],
    x: usize,
    y: usize,
) -> u64
    requires tied { Tied (ties onto.now link.now turn.now) }
    requires nonzero { (0 < get_or turn.now x 0) × (0 < get_or turn.now y 0) }
    ensures { (t : List ℕ) → Told el.now (ties onto.now link.now turn.now) t
        → result ≡ tall el.now t x y }
{
    let mut row = [UNKNOWN; POINTS];
    longest::row_of(el, onto, link, turn, x, &mut row);
    let l = longest::cut_at(el, onto, link, turn, y, &mut row);
    el[l]
}

// What the longest edge between x and y costs.
fn between(
    el: &[u64; POINTS],
    onto: &[usize; POINTS],
    link: &[usize; POINTS],
    turn: &[usize; POINTS],
    x: usize,
    y: usize,
) -> u64
    requires tied { (Tied (ties onto.now link.now turn.now)) × ((x < tree_bound) × (y < tree_bound)) }
    requires nonzero { (0 < get_or turn.now x 0) × (0 < get_or turn.now y 0) }
    ensures { (t : List ℕ) → Told el.now (ties onto.now link.now turn.now) t
        → result ≡ tall el.now t x y }
{
    if hangs(onto, turn, x, y) {
        link_cost(el, link, x)
    } else if hangs(onto, turn, y, x) {
        link_cost(el, link, y)
    } else {
        long_cost(el, onto, link, turn, x, y)
    }
}

// Whether that is no more than metal from x to y costs.
fn is_joined(
    w: Weights,
    pts: &[i32; NUMBERS],
    el: &[u64; POINTS],
    onto: &[usize; POINTS],
    link: &[usize; POINTS],
    turn: &[usize; POINTS],
    x: usize,
    y: usize,
) -> bool
    requires tied { (Tied (ties onto.now link.now turn.now)) × ((x < tree_bound) × (y < tree_bound)) }
    requires nonzero { (0 < get_or turn.now x 0) × (0 < get_or turn.now y 0) }
    ensures { (t : List ℕ) → Told el.now (ties onto.now link.now turn.now) t
        → result ≡ true → tall el.now t x y ≤ cost w (place_at pts.now x) (place_at pts.now y) }
{
    let d = plane::cost(w, tree::point_at(pts, x), tree::point_at(pts, y));
    between(el, onto, link, turn, x, y) <= d
}

// Whether the ends of each of the f edges before are joined by edges no longer than it. Most of them are edges still.
pub fn is_calm(
    w: Weights,
    pts: &[i32; NUMBERS],
    el: &[u64; POINTS],
    onto: &[usize; POINTS],
    link: &[usize; POINTS],
    turn: &[usize; POINTS],
    keys: &[usize; POINTS],
    f: usize,
    at: &[usize; POINTS],
) -> bool
    requires f_le_tree_bound { ((f ≤ tree_bound) × (Small pair_bound keys.now)) × ((Small tree_bound at.now) × (Tied (ties onto.now link.now
        turn.now))) }
    requires by_index { (k : ℕ) → k < f → (0 < get_or turn.now (get_or at.now (first_end (get_or keys.now k 0)) 0) 0)
        × (0 < get_or turn.now (get_or at.now (second_end (get_or keys.now k 0)) 0) 0) }
    ensures { (t : List ℕ) → Told el.now (ties onto.now link.now turn.now) t
        → result ≡ true → Calm w pts.now el.now t keys.now f at.now }
{
    for k in 0..f {
        let q = keys[k];
        let x = at[q / POINTS];
        let y = at[q % POINTS];
        if !is_joined(w, pts, el, onto, link, turn, x, y) {
            return false;
        }
    }
    true
}

// The key that the edge k before has now.
fn key_now(keys: &[usize; POINTS], at: &[usize; POINTS], k: usize) -> usize
    requires { ((k < tree_bound) × (Small pair_bound keys.now)) × (Small tree_bound at.now) }
    ensures { result ≡ key_in keys.now at.now k }
{
    let q = keys[k];
    at[q / POINTS] * POINTS + at[q % POINTS]
}

// The bounds of the e edges of now: of one that was there before, what it was; of any other, most.
pub fn carry(
    before: &[usize; POINTS],
    f: usize,
    at: &[usize; POINTS],
    keys: &[usize; POINTS],
    e: usize,
    most: u64,
    bound: &mut [u64; POINTS],
)
    requires f_le_tree_bound { ((f ≤ tree_bound) × (e ≤ tree_bound)) × ((Small pair_bound before.now) × (Small tree_bound at.now)) }
    requires bound_len { length bound.old ≡ tree_bound }
    ensures { (Origins before.now f at.now keys.now e most bound.old bound.new)
        × (length bound.new ≡ tree_bound) }
{
    let mut next = [most; POINTS];
    let mut j = 0;
    let mut k = 0;
    // Kept: two lists in order are gone through side by side, and which one goes on depends on what stands there.
    while j < f && k < e {
        let p = key_now(before, at, j);
        let q = keys[k];
        if p < q {
            j += 1;
        } else if q < p {
            k += 1;
        } else {
            next[k] = bound[j];
            k += 1;
        }
    }
    *bound = next;
}

// The bounds of the tree of now from those of the tree before; whether they are had. They are not where a point before is not found, more
// than one is new, or a longest edge may have become longer.
fn carried(
    w: Weights,
    old: &[i32; NUMBERS],
    m: usize,
    before: &[usize; POINTS],
    f: usize,
    pts: &[i32; NUMBERS],
    n: usize,
    macros: &[i32],
    keys: &[usize; POINTS],
    e: usize,
    el: &[u64; POINTS],
    most: u64,
    onto: &[usize; POINTS],
    link: &[usize; POINTS],
    turn: &[usize; POINTS],
    bound: &mut [u64; POINTS],
) -> bool
    requires n_le_tree_bound { ((n ≤ tree_bound) × (e ≤ tree_bound)) × ((Within n keys.now) × (Small pair_bound before.now)) }
    requires low { (Low most el.now) × (Hanging keys.now el.now e n (ties onto.now link.now turn.now)) }
    requires was { Was w (macros_of macros.now) old.now m before.now f bound.old }
    ensures bound_len { length bound.new ≡ tree_bound }
    ensures bounded { result ≡ true → Bounded w pts.now n (macros_of macros.now) keys.now e el.now
        (longest keys.now el.now e n) n bound.new }
{
    let mut at = [0usize; POINTS];
    let Some(fresh) = numbers(old, m, pts, n, &mut at) else {
        return false;
    };
    if !is_calm(w, pts, el, onto, link, turn, before, f, &at) {
        return false;
    }
    carry(before, f, &at, keys, e, most, bound);
    if let Some(s) = fresh {
        candidate::raise(w, pts, n, macros, keys, e, el, onto, link, turn, s, bound);
    }
    true
}

// The bounds of the tree of now: those of the tree before, where it is known and they stand; otherwise what no candidate gains more than.
pub fn renew(
    w: Weights,
    known: bool,
    old: &[i32; NUMBERS],
    m: usize,
    before: &[usize; POINTS],
    f: usize,
    pts: &[i32; NUMBERS],
    n: usize,
    macros: &[i32],
    keys: &[usize; POINTS],
    e: usize,
    el: &[u64; POINTS],
    most: u64,
    onto: &[usize; POINTS],
    link: &[usize; POINTS],
    turn: &[usize; POINTS],
    bound: &mut [u64; POINTS],
)
    requires n_le_tree_bound { ((n ≤ tree_bound) × (e ≤ tree_bound)) × ((Within n keys.now) × (Small pair_bound before.now)) }
    requires low { (Low most el.now) × (Hanging keys.now el.now e n (ties onto.now link.now turn.now)) }
    requires was { known ≡ true → Was w (macros_of macros.now) old.now m before.now f bound.old }
    ensures { Bounded w pts.now n (macros_of macros.now) keys.now e el.now
        (longest keys.now el.now e n) n bound.new }
{
    if !known
        || !carried(
            w, old, m, before, f, pts, n, macros, keys, e, el, most, onto, link, turn, bound,
        )
    {
        *bound = [most; POINTS];
    }
}
