// Roots, parents and ways of a graph on tables: a vertex is its number in the order of places, an edge its number in the order of edges.
// Edge k joins the vertices ea[k] and eb[k] and is el[k] long, which is what it costs. What each table holds stands in specs/.
#![tactic(auto)]

ghost use Rattle.std.specs.Prelude.{◌≡◌, ◌||◌, ◌+◌, ◌≤◌, ◌<◌, get_or};
ghost use Rattle.forest.specs.Bounds.{point_bound, cost_bound};
ghost use Rattle.forest.specs.Edges.{graph, from, entries, Fits, FirstBelow};
ghost use Rattle.forest.specs.Labels.{labels, better, gains, offer, relax, changes, settled, starts, unlabelled, labelled, Low};
ghost use Rattle.forest.specs.Parents.{leads, parents, orphans, adopt_by, parented, way_length, Falls};

use net::Net;

// The bounds of the tables are the net's.
pub const POINTS: usize = Net::POINTS;

pub const EDGES: usize = Net::EDGES;

// The distance of a vertex that no source has reached: above every way's, which has fewer edges than there are points.
// Kept: a distance UNREACHED, a parent POINTS and its edge EDGES mean none, as `unlabelled` and `orphans` say, which theorems name.
pub const UNREACHED: u64 = Net::POINTS as u64 * Net::COST;

// A step from a vertex to a neighbour, and the edge over which it goes.
#[derive(Clone, Copy)]
pub struct Step {
    pub to: usize,
    pub via: usize,
}

#[tactic(auto, unfolding(crate::specs::Labels::better))]
fn is_better(f: u64, r: usize, g: u64, s: usize) -> bool
    ensures { result ≡ better f r g s }
{
    (f, r) < (g, s)
}

// v takes u's label, d farther, where that is better; whether it did.
#[tactic(auto, unfolding(crate::specs::Labels::gains, crate::specs::Labels::offer))]
fn offer(far: &mut [u64; POINTS], root: &mut [usize; POINTS], u: usize, v: usize, d: u64) -> bool
    requires u_lt_point_bound { (u < point_bound) × (v < point_bound) }
    requires low { (Low far.old) × (d ≤ cost_bound) }
    ensures value { result ≡ gains u v d (labels far.old root.old) }
    ensures root_after { labels far.new root.new ≡ offer u v d (labels far.old root.old) }
{
    let f = far[u] + d;
    let r = root[u];
    let is_gain = is_better(f, r, far[v], root[v]);
    if is_gain {
        far[v] = f;
        root[v] = r;
    }
    is_gain
}

// Two vertices with an edge of length d offer their labels to each other; whether one was taken.
fn relax_edge(
    far: &mut [u64; POINTS],
    root: &mut [usize; POINTS],
    a: usize,
    b: usize,
    d: u64,
) -> bool
    requires a_lt_point_bound { (a < point_bound) × (b < point_bound) }
    requires low { (Low far.old) × (d ≤ cost_bound) }
    ensures value { result ≡ (gains a b d (labels far.old root.old)
        || gains b a d (offer a b d (labels far.old root.old))) }
    ensures root_after { labels far.new root.new
        ≡ offer b a d (offer a b d (labels far.old root.old)) }
{
    let there = offer(far, root, a, b, d);
    let back = offer(far, root, b, a, d);
    there | back
}

// A pass over all edges; whether it changed a label.
fn relax_all(
    ea: &[usize; EDGES],
    eb: &[usize; EDGES],
    el: &[u64; EDGES],
    e: usize,
    far: &mut [u64; POINTS],
    root: &mut [usize; POINTS],
) -> bool
    requires { (Fits (graph ea.now eb.now el.now e)) × (Low far.old) }
    ensures value { result ≡ changes (graph ea.now eb.now el.now e) (from 0 e)
        (labels far.old root.old) }
    ensures root_after { labels far.new root.new ≡ relax (graph ea.now eb.now el.now e)
        (from 0 e) (labels far.old root.old) }
{
    let mut moved = false;
    for k in 0..e {
        moved |= relax_edge(far, root, ea[k], eb[k], el[k]);
    }
    moved
}

// Passes until one changes nothing, n at most.
fn settle(
    ea: &[usize; EDGES],
    eb: &[usize; EDGES],
    el: &[u64; EDGES],
    e: usize,
    n: usize,
    far: &mut [u64; POINTS],
    root: &mut [usize; POINTS],
)
    requires { (Fits (graph ea.now eb.now el.now e)) × (Low far.old) }
    ensures { labels far.new root.new ≡ settled n
        (graph ea.now eb.now el.now e) (from 0 e) (labels far.old root.old) }
{
    for _ in 0..n {
        if !relax_all(ea, eb, el, e, far, root) {
            return;
        }
    }
}

// Each of the m sources is its own root.
fn start(sources: &[usize; POINTS], m: usize, far: &mut [u64; POINTS], root: &mut [usize; POINTS])
    requires { (m ≤ point_bound) × (FirstBelow sources.now m point_bound) }
    ensures { labels far.new root.new ≡ starts (entries sources.now 0 m)
        (labels far.old root.old) }
{
    for &s in &sources[..m] {
        far[s] = 0;
        root[s] = s;
    }
}

// Whether w has v's root and a shortest way of v runs through w, over an edge of length d.
#[tactic(auto, unfolding(crate::specs::Parents::leads))]
fn leads(far: &[u64; POINTS], root: &[usize; POINTS], w: usize, v: usize, d: u64) -> bool
    requires w_lt_point_bound { (w < point_bound) × (v < point_bound) }
    requires low { (Low far.now) × (d ≤ cost_bound) }
    ensures { result ≡ leads (labels far.now root.now) w v d }
{
    root[w] == root[v] && far[w] + d == far[v]
}

// w becomes the parent of v, below n, over edge k, of length d, where that leads and w is smaller than the parent so far.
#[tactic(auto, unfolding(crate::specs::Parents::adopt_by))]
fn adopt_by(
    far: &[u64; POINTS],
    root: &[usize; POINTS],
    n: usize,
    v: usize,
    w: usize,
    k: usize,
    d: u64,
    up: &mut [usize; POINTS],
    via: &mut [usize; POINTS],
)
    requires w_lt_point_bound { (w < point_bound) × (v < point_bound) }
    requires low { (Low far.now) × (d ≤ cost_bound) }
    ensures { parents up.new via.new ≡ adopt_by n (labels far.now root.now) v w k d
        (parents up.old via.old) }
{
    if v < n && leads(far, root, w, v, d) && w < up[v] {
        up[v] = w;
        via[v] = k;
    }
}

// The parents of the vertices below n, and the edges to them, in one pass over the edges: each offers each of its ends the other one.
fn adopt(
    ea: &[usize; EDGES],
    eb: &[usize; EDGES],
    el: &[u64; EDGES],
    e: usize,
    far: &[u64; POINTS],
    root: &[usize; POINTS],
    n: usize,
    up: &mut [usize; POINTS],
    via: &mut [usize; POINTS],
)
    requires fits { (Fits (graph ea.now eb.now el.now e)) × ((Low far.now) × (n ≤ point_bound)) }
    requires via_value { parents up.old via.old ≡ orphans }
    ensures { parents up.new via.new ≡ parented (graph ea.now eb.now el.now e) n
        (labels far.now root.now) }
{
    for k in 0..e {
        let (a, b, d) = (ea[k], eb[k], el[k]);
        adopt_by(far, root, n, a, b, k, d, up, via);
        adopt_by(far, root, n, b, a, k, d, up, via);
    }
}

// The length of v's way to its root, every edge of it counted. The distance falls with each call.
pub fn way_length(
    el: &[u64; EDGES],
    far: &[u64; POINTS],
    up: &[usize; POINTS],
    via: &[usize; POINTS],
    v: usize,
) -> u64
    requires { (Falls el.now far.now (parents up.now via.now)) × ((Low far.now) × (v < point_bound)) }
    ensures value { result ≡ way_length el.now far.now (parents up.now via.now) v }
    ensures upper_bound { result ≤ get_or far.now v 0 }
{
    let u = up[v];
    if u < POINTS {
        el[via[v]] + way_length(el, far, up, via, u)
    } else {
        0
    }
}

// The labels and the parents of a graph of n vertices with m sources, in tables that are fresh.
pub fn forest(
    ea: &[usize; EDGES],
    eb: &[usize; EDGES],
    el: &[u64; EDGES],
    e: usize,
    n: usize,
    sources: &[usize; POINTS],
    m: usize,
    far: &mut [u64; POINTS],
    root: &mut [usize; POINTS],
    up: &mut [usize; POINTS],
    via: &mut [usize; POINTS],
)
    requires fits { (Fits (graph ea.now eb.now el.now e))
        × ((n ≤ point_bound) × ((m ≤ point_bound) × (FirstBelow sources.now m point_bound))) }
    requires root_value { (labels far.old root.old ≡ unlabelled) × (parents up.old via.old ≡ orphans) }
    ensures root_after { labels far.new root.new ≡ labelled
        (graph ea.now eb.now el.now e) n (entries sources.now 0 m) }
    ensures via_after { parents up.new via.new ≡ parented
        (graph ea.now eb.now el.now e) n
        (labelled (graph ea.now eb.now el.now e) n (entries sources.now 0 m)) }
{
    start(sources, m, far, root);
    settle(ea, eb, el, e, n, far, root);
    adopt(ea, eb, el, e, far, root, n, up, via);
}
