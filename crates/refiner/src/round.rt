// A round: roots and ways of the vertices beside the tree, the candidate that is taken, and its exchange.
ghost use Rattle.std.specs.Prelude.{◌≡◌, true, ◌≤◌, MatchOption, IfSome};
ghost use Rattle.plane.specs.Flat.{macros_of};
ghost use Rattle.forest.specs.Bounds.{point_bound};
ghost use Rattle.forest.specs.Edges.{graph, Fits};
ghost use Rattle.tree.specs.Table.{tree_bound, pair_bound, tree, Small, Within};
ghost use Rattle.beside.specs.Beside.{ground};
ghost use Rattle.refiner.specs.Round.{exchange_with};
ghost use Rattle.bounds.specs.Carried.{Held, Was};
ghost use Rattle.refiner.specs.Ready.{Exchangeable, Roomy, Still, Turned};

use crate::{EDGES, Growth, graft};
use beside::{Choice, VERTEX_NUMBERS, VERTICES};
use candidates::Best;
use exchanges::exchange;
use plane::Weights;
use tree::{NUMBERS, POINTS, Size};

// The exchange of a choice, once the way to a vertex beside the tree is laid.
pub fn exchanged(
    vertices: &[i32; VERTEX_NUMBERS],
    far: &[u64; VERTICES],
    up: &[usize; VERTICES],
    seat: &[usize; VERTICES],
    pts: &mut [i32; NUMBERS],
    n: usize,
    keys: &mut [usize; POINTS],
    e: usize,
    c: Choice,
) -> Size
    requires { Exchangeable far.now up.now seat.now keys.old n e c }
    ensures { (tree pts.new result.points keys.new result.edges
        ≡ exchange_with vertices.now far.now up.now seat.now
        (tree pts.old n keys.old e) c)
        × (((result.points ≤ tree_bound) × (result.edges ≤ tree_bound)) × (Within result.points keys.new)) }
{
    let best = c.best;
    if c.beside {
        let start = Growth {
            points: n,
            edges: e,
            last: seat[best.point],
            edge: best.edge,
            cut: best.cut,
        };
        let g = graft::graft(vertices, far, up, best.point, pts, keys, start);
        let end = Best {
            edge: g.edge,
            point: g.last,
            cut: g.cut,
            ..best
        };
        exchange::exchange(pts, g.points, keys, g.edges, end)
    } else {
        exchange::exchange(pts, n, keys, e, best)
    }
}

// A round: how many points and edges there are after it, or None where no candidate gains. The tree before it and the bounds of its edges
// are known then.
pub fn round(
    w: Weights,
    known: bool,
    old: &mut [i32; NUMBERS],
    m: usize,
    before: &mut [usize; POINTS],
    k: usize,
    bound: &mut [u64; POINTS],
    pts: &mut [i32; NUMBERS],
    n: usize,
    macros: &[i32],
    keys: &mut [usize; POINTS],
    e: usize,
    vertices: &[i32; VERTEX_NUMBERS],
    v: usize,
    ea: &[usize; EDGES],
    eb: &[usize; EDGES],
    el: &[u64; EDGES],
    f: usize,
) -> Option<Size>
    requires fits { (Fits (graph ea.now eb.now el.now f)) × (v ≤ point_bound) }
    requires roomy { Roomy (ground vertices.now v (graph ea.now eb.now el.now f)) (tree pts.old n keys.old e) }
    requires small { (Small pair_bound before.old) × (known ≡ true → Was w (macros_of macros.now) old.old m before.old k bound.old) }
    ensures turned { MatchOption result
        (Still w (macros_of macros.now) (ground vertices.now v (graph ea.now eb.now el.now f)) (tree pts.old n keys.old e)
        (tree pts.new n keys.new e))
        (λ z. Turned w (macros_of macros.now) (ground vertices.now v (graph ea.now eb.now el.now f)) (tree pts.old n keys.old e)
        (tree pts.new z.points keys.new z.edges)) }
    ensures kept { IfSome result (λ z. (old.new ≡ pts.old) × (before.new ≡ keys.old)) }
    ensures held { Held w (macros_of macros.now) pts.old n keys.old e bound.new }
{
    let mut source = [0usize; VERTICES];
    let s = beside::sources(pts, n, vertices, v, &mut source);
    let mut far = [forest::UNREACHED; VERTICES];
    let mut root = [0usize; VERTICES];
    let mut up = [VERTICES; VERTICES];
    let mut via = [EDGES; VERTICES];
    forest::forest(
        ea, eb, el, f, v, &source, s, &mut far, &mut root, &mut up, &mut via,
    );
    let mut seat = [0usize; VERTICES];
    beside::seats(pts, n, vertices, v, &root, &mut seat);
    let c = beside::found(
        w, known, old, m, before, k, pts, n, macros, keys, e, vertices, v, &far, &up, &seat, bound,
    );
    if c.best.gain == 0 {
        return None;
    }
    *old = *pts;
    *before = *keys;
    Some(exchanged(vertices, &far, &up, &seat, pts, n, keys, e, c))
}
