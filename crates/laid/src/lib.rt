// Edges in a flat list, four numbers each: what they cost together, their metal, and giving them.
#![tactic(auto)]

ghost use Rattle.std.specs.Prelude.{◌≡◌, ◌*◌, ◌≤◌, length};
ghost use Rattle.lent.specs.Over.{over};
ghost use Rattle.lent.specs.Entries.{flat};
ghost use Rattle.joined.specs.Cost.{lengths};
ghost use Rattle.plane.specs.Cost.{cost, cost_limit};
ghost use Rattle.plane.specs.Distance.{distance};
ghost use Rattle.graph.specs.Numbers.{edge_numbers};
ghost use Rattle.laid.specs.Edges.{edges_of, laid_bound};

use plane::Weights;

// What the first e edges cost together.
pub fn total(w: Weights, edges: &[i32], e: usize) -> u64
    requires { (e * 4 ≤ length edges.now) × (e ≤ laid_bound) }
    ensures { (result ≡ lengths (cost w) (edges_of edges.now e)) × (result ≤ e * cost_limit) }
{
    let mut sum = 0;
    for i in 0..e {
        let a = plane::place_at(edges, i * 2);
        let b = plane::place_at(edges, i * 2 + 1);
        sum += plane::cost(w, a, b);
    }
    sum
}

// The metal to lay for them: their lengths added up, whatever the net's weights.
pub fn metal(edges: &[i32], e: usize) -> u64
    requires { (e * 4 ≤ length edges.now) × (e ≤ laid_bound) }
    ensures { (result ≡ lengths distance (edges_of edges.now e)) × (result ≤ e * cost_limit) }
{
    total(Weights::PLAIN, edges, e)
}

// The first e edges, in order.
pub fn give(edges: &[i32], e: usize, lent: &mut [i32])
    requires { (e * 4 ≤ length edges.now) × (e * 4 ≤ length lent.old) }
    ensures { lent.new ≡ over (flat edge_numbers (edges_of edges.now e)) lent.old }
{
    for i in 0..e {
        let a = plane::place_at(edges, i * 2);
        let b = plane::place_at(edges, i * 2 + 1);
        graph::put_edge(lent, i, a, b);
    }
}
