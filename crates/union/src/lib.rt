// The tree that refining starts with: the union of the kept paths, each edge once, on the tables of the terminal tree.
//
// Edges of kept paths are marked, then pins and the ends of marked edges. Vertices and edges are taken upwards, so that points and keys
// come out in order.
#![tactic(auto)]

ghost use Rattle.std.specs.Prelude.{◌≡◌, ◌∷◌, ◌++◌, map, ◌*◌, ◌+◌, ◌≤◌, ◌<◌, pos, length, get_or, replicate};
ghost use Rattle.lent.specs.Over.{over};
ghost use Rattle.lent.specs.Entries.{flat};
ghost use Rattle.plane.specs.Flat.{place_at};
ghost use Rattle.graph.specs.Numbers.{place_numbers};
ghost use Rattle.forest.specs.Bounds.{point_bound, edge_bound};
ghost use Rattle.forest.specs.Edges.{graph, entries, Fits, Ends, FirstBelow, Below};
ghost use Rattle.forest.specs.Parents.{parents, way, Falls};
ghost use Rattle.tree.specs.Table.{tree, key};
ghost use Rattle.tree.specs.Table as tables;
ghost use Rattle.union.specs.Union.{both_ends, kept_edges, start_of};
ghost use Rattle.union.specs.Marks.{marked, marks, Ranking, Startable};

use net::Net;
use tree::Size;

// The bounds of the tables are the net's.
pub const POINTS: usize = Net::POINTS;

pub const EDGES: usize = Net::EDGES;

pub const VERTEX_NUMBERS: usize = POINTS * 2;

// Kept: marks are numbers, 1 in a table of zeros, and a parent POINTS means none: `marked` and `orphans`, which theorems name, say so.

// The edges on v's way to its root marked. The distance, which falls by el along each edge, falls with each call.
fn mark_way(
    el: &[u64; EDGES],
    far: &[u64; POINTS],
    up: &[usize; POINTS],
    via: &[usize; POINTS],
    v: usize,
    on: &mut [usize; EDGES],
)
    requires { (Falls el.now far.now (parents up.now via.now)) × (v < point_bound) }
    ensures { on.new ≡ marked (way far.now (parents up.now via.now) v) on.old }
{
    let u = up[v];
    if u < POINTS {
        on[via[v]] = 1;
        mark_way(el, far, up, via, u, on);
    }
}

// The edges of the path over edge k, between a and b.
fn mark_path(
    el: &[u64; EDGES],
    far: &[u64; POINTS],
    up: &[usize; POINTS],
    via: &[usize; POINTS],
    a: usize,
    b: usize,
    k: usize,
    on: &mut [usize; EDGES],
)
    requires falls { Falls el.now far.now (parents up.now via.now) }
    requires a_lt_point_bound { (a < point_bound) × ((b < point_bound) × (k < edge_bound)) }
    ensures { on.new ≡ marked (way far.now (parents up.now via.now) a
        ++ (k ∷ way far.now (parents up.now via.now) b)) on.old }
{
    mark_way(el, far, up, via, a, on);
    on[k] = 1;
    mark_way(el, far, up, via, b, on);
}

// The edges of the first `count` kept paths.
fn mark_paths(
    ea: &[usize; EDGES],
    eb: &[usize; EDGES],
    el: &[u64; EDGES],
    e: usize,
    far: &[u64; POINTS],
    up: &[usize; POINTS],
    via: &[usize; POINTS],
    kept: &[usize; EDGES],
    count: usize,
    on: &mut [usize; EDGES],
)
    requires falls { (Falls el.now far.now (parents up.now via.now)) × (Fits (graph ea.now eb.now el.now e)) }
    requires count_le_edge_bound { (count ≤ edge_bound) × (FirstBelow kept.now count e) }
    ensures { on.new ≡ marked (kept_edges (graph ea.now eb.now el.now e) far.now
        (parents up.now via.now) (entries kept.now 0 count)) on.old }
{
    for &k in &kept[..count] {
        mark_path(el, far, up, via, ea[k], eb[k], k, on);
    }
}

// The m pins.
fn mark_pins(pin: &[usize; POINTS], m: usize, at: &mut [usize; POINTS])
    requires { (m ≤ point_bound) × (FirstBelow pin.now m point_bound) }
    ensures { at.new ≡ marked (entries pin.now 0 m) at.old }
{
    for &v in &pin[..m] {
        at[v] = 1;
    }
}

// The ends of those of e edges that are marked.
fn mark_ends(
    ea: &[usize; EDGES],
    eb: &[usize; EDGES],
    e: usize,
    on: &[usize; EDGES],
    at: &mut [usize; POINTS],
)
    requires { Ends ea.now eb.now e }
    ensures { at.new ≡ marked (flat (both_ends ea.now eb.now) (marks on.now e))
        at.old }
{
    for k in 0..e {
        if 0 < on[k] {
            at[ea[k]] = 1;
            at[eb[k]] = 1;
        }
    }
}

// The marked ones of n vertices as points, and for each how many come before it; how many there are.
fn put_points(
    vertices: &[i32; VERTEX_NUMBERS],
    n: usize,
    at: &[usize; POINTS],
    rank: &mut [usize; POINTS],
    pts: &mut [i32; tree::NUMBERS],
) -> usize
    requires n_le_point_bound { (n ≤ point_bound) × ((length pts.old ≡ tables.tree_bound * 2) × (length rank.old ≡ point_bound)) }
    requires below { Below point_bound rank.old }
    ensures value { result ≡ length (marks at.now n) }
    ensures pts_after { pts.new ≡ over (flat place_numbers (map (place_at vertices.now) (marks at.now n)))
        pts.old }
    ensures ranking { (Ranking at.now n rank.new) × (Below point_bound rank.new) }
{
    let mut c = 0;
    for v in 0..n {
        if 0 < at[v] {
            tree::put_point(pts, c, plane::place_at(vertices, v));
            rank[v] = c;
            c += 1;
        }
    }
    c
}

// The edge of two points by their ranks.
fn key_of(rank: &[usize; POINTS], a: usize, b: usize) -> usize
    requires { (Below point_bound rank.now) × ((a < point_bound) × (b < point_bound)) }
    ensures { result ≡ key (get_or rank.now a 0) (get_or rank.now b 0) }
{
    rank[a] * tree::POINTS + rank[b]
}

// The marked ones of e edges by the ranks of their ends; how many there are.
fn put_keys(
    ea: &[usize; EDGES],
    eb: &[usize; EDGES],
    e: usize,
    on: &[usize; EDGES],
    rank: &[usize; POINTS],
    keys: &mut [usize; tree::POINTS],
) -> usize
    requires ends { (Ends ea.now eb.now e) × (Below point_bound rank.now) }
    requires e_len_bound { (length (marks on.now e) ≤ tables.tree_bound) × (length keys.old ≡ tables.tree_bound) }
    ensures value { result ≡ length (marks on.now e) }
    ensures keys_after { keys.new ≡ over (map (λ k. key (get_or rank.now (get_or ea.now k 0) 0)
        (get_or rank.now (get_or eb.now k 0) 0)) (marks on.now e)) keys.old }
{
    let mut c = 0;
    for k in 0..e {
        if 0 < on[k] {
            keys[c] = key_of(rank, ea[k], eb[k]);
            c += 1;
        }
    }
    c
}

// The union of the kept paths of a terminal tree, as the refiner's tables, which are fresh.
pub fn start(
    vertices: &[i32; VERTEX_NUMBERS],
    n: usize,
    ea: &[usize; EDGES],
    eb: &[usize; EDGES],
    el: &[u64; EDGES],
    e: usize,
    pin: &[usize; POINTS],
    m: usize,
    far: &[u64; POINTS],
    up: &[usize; POINTS],
    via: &[usize; POINTS],
    kept: &[usize; EDGES],
    count: usize,
    pts: &mut [i32; tree::NUMBERS],
    keys: &mut [usize; tree::POINTS],
) -> Size
    requires startable { Startable (graph ea.now eb.now el.now e) n pin.now m far.now (parents up.now via.now) kept.now count }
    requires pts_value { (pts.old ≡ replicate (tables.tree_bound * 2) (pos 0)) × (keys.old ≡ replicate tables.tree_bound 0) }
    ensures { tree pts.new result.points keys.new result.edges
        ≡ start_of (graph ea.now eb.now el.now e) far.now
        (parents up.now via.now)
        (entries kept.now 0 count) (place_at vertices.now) n (entries pin.now 0 m) }
{
    let mut on = [0usize; EDGES];
    mark_paths(ea, eb, el, e, far, up, via, kept, count, &mut on);
    let mut at = [0usize; POINTS];
    mark_pins(pin, m, &mut at);
    mark_ends(ea, eb, e, &on, &mut at);
    let mut rank = [0usize; POINTS];
    let points = put_points(vertices, n, &at, &mut rank, pts);
    let edges = put_keys(ea, eb, e, &on, &rank, keys);
    Size { points, edges }
}
