// The refiner: rounds and pruning on tables of a tree's points and edges.
//
// A point is its number in the table of points, which is in the order of places; an edge is the key of its ends' numbers, in a table in the
// order of edges. So every tie is settled by scanning upwards and giving way only to what is strictly better.
#![tactic(auto)]

mod graft; // graft.rt: a way to a vertex beside the tree, laid
mod round; // round.rt: a round

ghost use Rattle.std.specs.Prelude.{◌≡◌, ◌≤◌};
ghost use Rattle.plane.specs.Flat.{macros_of};
ghost use Rattle.net.specs.Pins.{pin_count};
ghost use Rattle.net.specs.Net.{net_with};
ghost use Rattle.tree.specs.Table.{tree_bound, pair_bound, tree, Small, Within};
ghost use Rattle.forest.specs.Edges.{graph};
ghost use Rattle.beside.specs.Beside.{ground};
ghost use Rattle.refiner.specs.Round.{rounds_in};
ghost use Rattle.refiner.specs.Refined.{total, Answer};
ghost use Rattle.refiner.specs.Ready.{Ready};

use beside::VERTEX_NUMBERS;
use exchanges::prune;
use net::Net;
use plane::Weights;
use tree::{NUMBERS, POINTS, Size};

// Edges of the graph.
pub const EDGES: usize = forest::EDGES;

// A tree while a way is laid: how many points and edges it has, the last point that was put in, and the two edges that the exchange will
// take out, by their numbers.
#[derive(Clone, Copy)]
pub struct Growth {
    pub points: usize,
    pub edges: usize,
    pub last: usize,
    pub edge: usize,
    pub cut: usize,
}

// A refined tree: how many points and edges it has, and what its edges cost together.
#[derive(Clone, Copy)]
pub struct Refined {
    pub points: usize,
    pub edges: usize,
    pub total: u64,
}

// At most m rounds, one for each pin; the first that finds no gain is the last.
pub fn rounds(
    w: Weights,
    pins: &[i32],
    macros: &[i32],
    pts: &mut [i32; NUMBERS],
    n: usize,
    keys: &mut [usize; POINTS],
    e: usize,
    vertices: &[i32; VERTEX_NUMBERS],
    v: usize,
    ea: &[usize; EDGES],
    eb: &[usize; EDGES],
    el: &[u64; EDGES],
    f: usize,
) -> Size
    requires { Ready (net_with w pins.now macros.now) (ground vertices.now v (graph ea.now eb.now el.now f))
        (tree pts.old n keys.old e) (pin_count pins.now) }
    ensures { (tree pts.new result.points keys.new result.edges
        ≡ rounds_in w (macros_of macros.now)
        (ground vertices.now v (graph ea.now eb.now el.now f))
        (pin_count pins.now) (tree pts.old n keys.old e))
        × (((result.points ≤ tree_bound) × (result.edges ≤ tree_bound)) × (Within result.points keys.new)) }
{
    let m = net::pin_count(pins);
    let mut z = Size {
        points: n,
        edges: e,
    };
    let mut old = [0i32; NUMBERS];
    let mut before = [0usize; POINTS];
    let mut bound = [0u64; POINTS];
    let mut was = z;
    let mut known = false;
    // Kept: r is read by the proof alone, to which `for _` gives no index.
    for r in 0..m {
        let Some(y) = round::round(
            w,
            known,
            &mut old,
            was.points,
            &mut before,
            was.edges,
            &mut bound,
            pts,
            z.points,
            macros,
            keys,
            z.edges,
            vertices,
            v,
            ea,
            eb,
            el,
            f,
        ) else {
            return z;
        };
        known = true;
        was = z;
        z = y;
    }
    z
}

// What the first e edges cost together.
pub fn total(w: Weights, pts: &[i32; NUMBERS], keys: &[usize; POINTS], e: usize) -> u64
    requires { (e ≤ tree_bound) × (Small pair_bound keys.now) }
    ensures { result ≡ total w pts.now keys.now e }
{
    let mut sum = 0;
    for k in 0..e {
        sum += longest::edge_cost(w, pts, keys, k);
    }
    sum
}

// The refined tree of the tree of n points and e edges, in place: how many points and edges there are then, and what they cost together.
pub fn refine(
    net: Net,
    pins: &[i32],
    macros: &[i32],
    pts: &mut [i32; NUMBERS],
    n: usize,
    keys: &mut [usize; POINTS],
    e: usize,
    vertices: &[i32; VERTEX_NUMBERS],
    v: usize,
    ea: &[usize; EDGES],
    eb: &[usize; EDGES],
    el: &[u64; EDGES],
    f: usize,
) -> Refined
    requires { Ready (net_with net.weights pins.now macros.now) (ground vertices.now v (graph ea.now eb.now el.now f))
        (tree pts.old n keys.old e) (pin_count pins.now) }
    ensures { Answer (net_with net.weights pins.now macros.now)
        (ground vertices.now v (graph ea.now eb.now el.now f))
        (tree pts.old n keys.old e) pts.new keys.new result }
{
    let w = net.weights;
    let z = rounds(w, pins, macros, pts, n, keys, e, vertices, v, ea, eb, el, f);
    let left = prune::prune_points(pins, pts, z.points, keys, z.edges);
    Refined {
        points: z.points,
        edges: left,
        total: total(w, pts, keys, left),
    }
}
