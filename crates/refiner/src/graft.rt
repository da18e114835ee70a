// A way from the tree to a vertex beside it, laid point by point from the tree outwards.
ghost use Rattle.std.specs.Prelude.{◌≡◌, ◌+◌, ◌≤◌, ◌<◌, length};
ghost use Rattle.forest.specs.Bounds.{point_bound};
ghost use Rattle.forest.specs.Parents.{way_after, Nearing};
ghost use Rattle.tree.specs.Table.{tree_bound};
ghost use Rattle.refiner.specs.Graft.{pair_key, key_rank, grown, leaf, grafted, Growing};

use crate::Growth;
use beside::{VERTEX_NUMBERS, VERTICES};
use exchanges::exchange;
use plane::Place;
use tree::{NUMBERS, POINTS};

// The key of the edge of two points.
#[tactic(auto, unfolding(crate::specs::Graft::pair_key))]
fn pair_key(a: usize, b: usize) -> usize
    requires { (a ≤ tree_bound) × (b ≤ tree_bound) }
    ensures { result ≡ pair_key a b }
{
    if a < b {
        a * POINTS + b
    } else {
        b * POINTS + a
    }
}

// How many of e keys come before a key.
fn key_rank(keys: &[usize; POINTS], e: usize, key: usize) -> usize
    requires { e ≤ tree_bound }
    ensures { result ≡ key_rank keys.now e key }
{
    for i in 0..e {
        if key <= keys[i] {
            return i;
        }
    }
    e
}

// x put in, with an edge to the last point.
fn leaf(pts: &mut [i32; NUMBERS], keys: &mut [usize; POINTS], x: Place, g: Growth) -> Growth
    requires { ((g.points < tree_bound) × (g.edges < tree_bound)) × (Growing g keys.old) }
    ensures result_after { grown pts.new keys.new result ≡ leaf x (grown pts.old keys.old g) }
    ensures points_value { ((result.points ≡ g.points + 1) × (result.edges ≡ g.edges + 1)) × (Growing result keys.new) }
{
    let p = exchange::rank(pts, g.points, x);
    exchange::open(pts, g.points, p, x);
    exchange::renumber(keys, g.edges, p);
    let key = pair_key(p, exchange::bump(p, g.last));
    let i = key_rank(keys, g.edges, key);
    exchange::insert(keys, g.edges, key);
    Growth {
        points: g.points + 1,
        edges: g.edges + 1,
        last: p,
        edge: exchange::bump(i, g.edge),
        cut: exchange::bump(i, g.cut),
    }
}

// The way from the last point to u laid, from there outwards. The distance falls with each call.
pub fn graft(
    vertices: &[i32; VERTEX_NUMBERS],
    far: &[u64; VERTICES],
    up: &[usize; VERTICES],
    u: usize,
    pts: &mut [i32; NUMBERS],
    keys: &mut [usize; POINTS],
    g: Growth,
) -> Growth
    requires nearing { (Nearing far.now up.now) × (u < point_bound) }
    requires u_bound { (g.points + length (way_after far.now up.now u) ≤ tree_bound)
        × ((g.edges + length (way_after far.now up.now u) ≤ tree_bound) × (Growing g keys.old)) }
    ensures result_after { grown pts.new keys.new result ≡ grafted vertices.now
        (way_after far.now up.now u) u (grown pts.old keys.old g) }
    ensures points_value { ((result.points ≡ g.points + length (way_after far.now up.now u))
        × (result.edges ≡ g.edges + length (way_after far.now up.now u)))
        × (Growing result keys.new) }
{
    let y = up[u];
    if y < VERTICES {
        let h = graft(vertices, far, up, y, pts, keys, g);
        leaf(pts, keys, plane::place_at(vertices, u), h)
    } else {
        g
    }
}
