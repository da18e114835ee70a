// The refined tree's edges and its wires, from the refiner's tables into lent space, and its metal.
#![tactic(auto)]

ghost use Rattle.std.specs.Prelude.{◌≡◌, ◌+◌, ◌*◌, ◌≤◌, length};
ghost use Rattle.std.proofs.lemmas.List.Edits.{sets};
ghost use Rattle.lent.specs.Over.{over};
ghost use Rattle.lent.specs.Entries.{flat};
ghost use Rattle.graph.specs.Numbers.{edge_numbers};
ghost use Rattle.tree.specs.Table.{tree_bound, pair_bound, Small};
ghost use Rattle.tree.specs.Edges.{table_edges};
ghost use Rattle.refined.specs.Metal.{metal};
ghost use Rattle.refined.specs.Wires.{drawn, bend, wires_of_edge, wires};

use plane::{Place, Weights};
use tree::{NUMBERS, POINTS};

// The first e edges, in order.
pub fn give_edges(pts: &[i32; NUMBERS], keys: &[usize; POINTS], e: usize, lent: &mut [i32])
    requires { (e ≤ tree_bound) × ((Small pair_bound keys.now) × (e * 4 ≤ length lent.old)) }
    ensures { lent.new ≡ over (flat edge_numbers (table_edges pts.now keys.now e))
        lent.old }
{
    for k in 0..e {
        let q = keys[k];
        let a = plane::place_at(pts, q / POINTS);
        let b = plane::place_at(pts, q % POINTS);
        graph::put_edge(lent, k, a, b);
    }
}

// The metal to lay for the first e edges: their lengths added up, whatever the net's weights.
pub fn metal(pts: &[i32; NUMBERS], keys: &[usize; POINTS], e: usize) -> u64
    requires { (e ≤ tree_bound) × (Small pair_bound keys.now) }
    ensures { result ≡ metal (table_edges pts.now keys.now e) }
{
    refiner::total(Weights::PLAIN, pts, keys, e)
}

// Where the horizontal wire from a ends and the vertical one to b begins.
fn bend(a: Place, b: Place) -> Place
    ensures { result ≡ bend a b }
{
    Place { x: b.x, y: a.y }
}

// The wire from a to b as the i-th of a table, unless its length is zero; how many there are then.
fn put_wire(table: &mut [i32], i: usize, a: Place, b: Place) -> usize
    requires { i * 4 + 4 ≤ length table.old }
    ensures value { result ≡ i + length (drawn a b) }
    ensures table_after { table.new ≡ sets table.old (i * 4) (flat edge_numbers (drawn a b)) }
{
    if plane::distance(a, b) == 0 {
        return i;
    }
    graph::put_edge(table, i, a, b);
    i + 1
}

// The wires of the edge of a and b, from the i-th of a table on; how many there are then.
fn put_wires(table: &mut [i32], i: usize, a: Place, b: Place) -> usize
    requires { i * 4 + 8 ≤ length table.old }
    ensures value { result ≡ i + length (wires_of_edge (a, b)) }
    ensures table_after { table.new ≡ sets table.old (i * 4) (flat edge_numbers (wires_of_edge (a, b))) }
{
    let c = bend(a, b);
    let j = put_wire(table, i, a, c);
    put_wire(table, j, c, b)
}

// The wires of the first e edges, in order; how many there are.
pub fn give_wires(pts: &[i32; NUMBERS], keys: &[usize; POINTS], e: usize, lent: &mut [i32]) -> usize
    requires { (e ≤ tree_bound) × ((Small pair_bound keys.now) × (e * 8 ≤ length lent.old)) }
    ensures value { result ≡ length (wires (table_edges pts.now keys.now e)) }
    ensures lent_after { lent.new ≡ over (flat edge_numbers (wires (table_edges pts.now keys.now e)))
        lent.old }
{
    let mut count = 0;
    for k in 0..e {
        let q = keys[k];
        let a = plane::place_at(pts, q / POINTS);
        let b = plane::place_at(pts, q % POINTS);
        count = put_wires(lent, count, a, b);
    }
    count
}
