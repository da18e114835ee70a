// The kept bridges on tables, and the terminal tree of a graph on tables.
#![tactic(auto)]

ghost use Rattle.std.specs.Prelude.{◌≡◌, map, ◌+◌, ◌^◌, ◌≤◌, ◌<◌, length, get_or};
ghost use Rattle.forest.specs.Bounds.{point_bound, edge_bound, path_bound};
ghost use Rattle.forest.specs.Edges.{graph, entries, filled, Fits, Named, FirstBelow, Below, Listed};
ghost use Rattle.forest.specs.Labels.{labels, unlabelled, Low};
ghost use Rattle.forest.specs.Parents.{parents, orphans, Falls};
ghost use Rattle.bridges.specs.Bridges.{roots_in};
ghost use Rattle.keeping.specs.Kept.{kept_bridges, kept_lengths, terminal};
ghost use Rattle.lists.specs.Total.{total};
ghost use Rattle.joined.specs.Table.{changed, kept_by};

use forest::{EDGES, POINTS};

// How many paths are kept, and the sum of their lengths.
#[derive(Clone, Copy)]
pub struct Kept {
    pub count: usize,
    pub total: u64,
}

// Groups of numbered points

// The group b becomes the group a.
// Kept: for u16, beside `labels` for usize: `changed`, which theorems name, is a function of numbers and not of any T.
pub fn merge(group: &mut [u16], a: u16, b: u16)
    ensures { group.new ≡ map (changed a b) group.old }
{
    for x in group.iter_mut() {
        if *x == b {
            *x = a;
        }
    }
}

// Each of the first n points is its own group.
pub fn number(group: &mut [u16], n: usize)
    requires { (n ≤ length group.old) × (n ≤ 2 ^ 16) }
    ensures { group.new ≡ filled (λ k. k) 0 n group.old }
{
    for k in 0..n {
        group[k] = k as u16;
    }
}

// Bridges that are kept

// The group of the root of one end of edge k.
fn group_at(ends: &[usize; EDGES], root: &[usize; POINTS], group: &[u16; POINTS], k: usize) -> u16
    requires { (k < edge_bound) × ((get_or ends.now k 0 < point_bound) × (Below point_bound root.now)) }
    ensures { result ≡ get_or group.now (get_or root.now (get_or ends.now k 0) 0) 0 }
{
    group[root[ends[k]]]
}

// Of the first n edges of `order` those that are kept; how many they are.
fn keep(
    ea: &[usize; EDGES],
    eb: &[usize; EDGES],
    root: &[usize; POINTS],
    order: &[u16; EDGES],
    n: usize,
    group: &mut [u16; POINTS],
    kept: &mut [usize; EDGES],
) -> usize
    requires named { (Named ea.now eb.now order.now n) × ((Below point_bound root.now) × (n ≤ edge_bound)) }
    requires group_len { (length group.old ≡ point_bound) × (length kept.old ≡ edge_bound) }
    ensures listed { Listed (kept_by (roots_in ea.now eb.now root.now) (entries order.now 0 n)
        group.old) kept.old kept.new result }
    ensures upper_bound { result ≤ n }
{
    let mut count = 0;
    for &j in &order[..n] {
        let k = usize::from(j);
        let a = group_at(ea, root, group, k);
        let b = group_at(eb, root, group, k);
        if a != b {
            merge(group, a, b);
            kept[count] = k;
            count += 1;
        }
    }
    count
}

// The lengths of the first n paths that are kept; their sum.
fn measure(w: &[u64; EDGES], kept: &[usize; EDGES], n: usize, long: &mut [u64; EDGES]) -> u64
    requires n_le_edge_bound { (n ≤ edge_bound) × ((FirstBelow kept.now n edge_bound) × (length long.old ≡ edge_bound)) }
    requires below { Below (path_bound + 1) w.now }
    ensures listed { Listed (map (λ k. get_or w.now k 0) (entries kept.now 0 n)) long.old
        long.new n }
    ensures value { result ≡ total (map (λ k. get_or w.now k 0) (entries kept.now 0 n)) }
{
    let mut sum = 0;
    for i in 0..n {
        let d = w[kept[i]];
        long[i] = d;
        sum += d;
    }
    sum
}

// The kept bridges in the order kept, and the length of each one's path, from the labels and the parents.
fn kept_paths(
    ea: &[usize; EDGES],
    eb: &[usize; EDGES],
    el: &[u64; EDGES],
    e: usize,
    far: &[u64; POINTS],
    root: &[usize; POINTS],
    up: &[usize; POINTS],
    via: &[usize; POINTS],
    kept: &mut [usize; EDGES],
    long: &mut [u64; EDGES],
) -> Kept
    requires fits { (Fits (graph ea.now eb.now el.now e)) × ((Low far.now) × (Below point_bound root.now)) }
    requires falls { Falls el.now far.now (parents up.now via.now) }
    requires kept_len { (length kept.old ≡ edge_bound) × (length long.old ≡ edge_bound) }
    ensures listed { Listed (kept_bridges (graph ea.now eb.now el.now e)
        (labels far.now root.now) (parents up.now via.now)) kept.old
        kept.new result.count }
    ensures listed_2 { Listed (kept_lengths (graph ea.now eb.now el.now e)
        (labels far.now root.now) (parents up.now via.now)) long.old
        long.new result.count }
    ensures total_value { result.total ≡ total (kept_lengths (graph ea.now eb.now el.now e)
        (labels far.now root.now) (parents up.now via.now)) }
{
    let mut w = [0u64; EDGES];
    bridges::weigh(ea, eb, el, e, far, up, via, &mut w);
    let mut order = [0u16; EDGES];
    let n = bridges::sort_bridges(ea, eb, e, root, &w, &mut order);
    let mut group = [0u16; POINTS];
    number(&mut group, POINTS);
    let count = keep(ea, eb, root, &order, n, &mut group, kept);
    let total = measure(&w, kept, count, long);
    Kept { count, total }
}

// The terminal tree of a graph of n vertices with m pins: the labels and the parents in tables that are fresh, the kept bridges in the
// order kept, and the length of each one's path.
pub fn kept_tree(
    ea: &[usize; EDGES],
    eb: &[usize; EDGES],
    el: &[u64; EDGES],
    e: usize,
    n: usize,
    pin: &[usize; POINTS],
    m: usize,
    far: &mut [u64; POINTS],
    root: &mut [usize; POINTS],
    up: &mut [usize; POINTS],
    via: &mut [usize; POINTS],
    kept: &mut [usize; EDGES],
    long: &mut [u64; EDGES],
) -> Kept
    requires fits { (Fits (graph ea.now eb.now el.now e))
        × ((n ≤ point_bound) × ((m ≤ point_bound) × (FirstBelow pin.now m point_bound))) }
    requires root_value { (labels far.old root.old ≡ unlabelled) × (parents up.old via.old ≡ orphans) }
    requires kept_len { (length kept.old ≡ edge_bound) × (length long.old ≡ edge_bound) }
    ensures root_after { labels far.new root.new ≡
        (terminal (graph ea.now eb.now el.now e) n (entries pin.now 0 m)).labels }
    ensures via_after { parents up.new via.new ≡
        (terminal (graph ea.now eb.now el.now e) n (entries pin.now 0 m)).parents }
    ensures listed { Listed (terminal (graph ea.now eb.now el.now e) n
        (entries pin.now 0 m)).bridges kept.old kept.new result.count }
    ensures listed_2 { Listed (terminal (graph ea.now eb.now el.now e) n
        (entries pin.now 0 m)).lengths long.old long.new result.count }
    ensures total_value { result.total ≡ (terminal (graph ea.now eb.now el.now e) n
        (entries pin.now 0 m)).total }
{
    forest::forest(ea, eb, el, e, n, pin, m, far, root, up, via);
    kept_paths(ea, eb, el, e, far, root, up, via, kept, long)
}
