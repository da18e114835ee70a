// What an allowed net is given: its graph, the refined tree's edges and its wires, and a price. Each asks for what the check has shown, and
// for the room that the operation has found.
#![tactic(auto)]

ghost use Rattle.std.specs.Prelude.{◌≡◌, ◌≤◌, length};
ghost use Rattle.lent.specs.Over.{over};
ghost use Rattle.lent.specs.Entries.{flat};
ghost use Rattle.net.specs.Net.{handed};
ghost use Rattle.net.specs.Pins.{pin_count};
ghost use Rattle.room.specs.Needs.{vertex_need, link_need, edge_need, wire_need};
ghost use Rattle.graph.specs.Numbers.{place_numbers, edge_numbers};
ghost use Rattle.made.specs.Counted.{Counted};
ghost use Rattle.price.specs.Charge.{metal_bound};
ghost use Rattle.price.specs.Price.{priced, told_price};
ghost use Rattle.answers.specs.Graph.{net_vertices, net_edges, point_count};
ghost use Rattle.answers.specs.Terminal.{paths_total};
ghost use Rattle.answers.specs.Refined.{laid_of, laid_total, metal_of};
ghost use Rattle.answers.specs.Wires.{wires_of};

use net::{Net, Refusal};

// How many vertices and how many edges of a graph were given.
#[derive(Clone, Copy)]
pub struct Spanned {
    pub vertices: usize,
    pub edges: usize,
}

// How many edges of a refined tree were given, their total, their metal, and the terminal tree's total.
#[derive(Clone, Copy)]
pub struct Laid {
    pub edges: usize,
    pub total: u64,
    pub metal: u64,
    pub terminal: u64,
}

// The graph: its vertices, and its edges.
pub fn graph(
    net: Net,
    pins: &[i32],
    macros: &[i32],
    vertices: &mut [i32],
    edges: &mut [i32],
) -> Spanned
    requires counted { Counted net (handed net.weights) pins.now macros.now }
    requires macros_in_bounds { (vertex_need (point_count pins.now macros.now) ≤ length vertices.old)
        × (link_need (point_count pins.now macros.now) ≤ length edges.old) }
    ensures vertices_value { result.vertices ≡ length (net_vertices (handed net.weights) pins.now macros.now) }
    ensures edges_value { result.edges ≡ length (net_edges (handed net.weights) pins.now macros.now) }
    ensures vertices_after { vertices.new ≡ over (flat place_numbers (net_vertices (handed net.weights) pins.now
        macros.now)) vertices.old }
    ensures edges_after { edges.new ≡ over (flat edge_numbers (net_edges (handed net.weights) pins.now
        macros.now)) edges.old }
{
    let v = graph::vertices(pins, macros, &mut *vertices);
    let e = graph::edges(net.weights, macros, &vertices[..v * 2], &mut *edges);
    Spanned {
        vertices: v,
        edges: e,
    }
}

// The refined tree's edges.
pub fn edges(net: Net, pins: &[i32], macros: &[i32], edges: &mut [i32]) -> Laid
    requires counted { Counted net (handed net.weights) pins.now macros.now }
    requires pins_in_bounds { edge_need (point_count pins.now macros.now) (pin_count pins.now) ≤ length edges.old }
    ensures edges_value { result.edges ≡ length (laid_of (handed net.weights) pins.now macros.now) }
    ensures total_value { result.total ≡ laid_total (handed net.weights) pins.now macros.now }
    ensures metal_value { result.metal ≡ metal_of (handed net.weights) pins.now macros.now }
    ensures terminal_value { result.terminal ≡ paths_total (handed net.weights) pins.now macros.now }
    ensures edges_after { edges.new ≡ over (flat edge_numbers (laid_of (handed net.weights) pins.now
        macros.now)) edges.old }
{
    let mut points = [0i32; tree::NUMBERS];
    let mut keys = [0usize; tree::POINTS];
    let tree = made::refine(net, pins, macros, &mut points, &mut keys);
    let metal = refined::metal(&points, &keys, tree.edges);
    refined::give_edges(&points, &keys, tree.edges, &mut *edges);
    Laid {
        edges: tree.edges,
        total: tree.total,
        metal,
        terminal: tree.terminal,
    }
}

// Its wires, and how many there are.
pub fn wires(net: Net, pins: &[i32], macros: &[i32], wires: &mut [i32]) -> usize
    requires counted { Counted net (handed net.weights) pins.now macros.now }
    requires pins_in_bounds { wire_need (point_count pins.now macros.now) (pin_count pins.now) ≤ length wires.old }
    ensures value { result ≡ length (wires_of (handed net.weights) pins.now macros.now) }
    ensures wires_after { wires.new ≡ over (flat edge_numbers (wires_of (handed net.weights) pins.now
        macros.now)) wires.old }
{
    let mut points = [0i32; tree::NUMBERS];
    let mut keys = [0usize; tree::POINTS];
    let tree = made::refine(net, pins, macros, &mut points, &mut keys);
    refined::give_wires(&points, &keys, tree.edges, &mut *wires)
}

// The metal of the refined tree.
fn metal(net: Net, pins: &[i32], macros: &[i32]) -> u64
    requires { Counted net (handed net.weights) pins.now macros.now }
    ensures { (result ≡ metal_of (handed net.weights) pins.now macros.now) × (result ≤ metal_bound) }
{
    let mut points = [0i32; tree::NUMBERS];
    let mut keys = [0usize; tree::POINTS];
    let tree = made::refine(net, pins, macros, &mut points, &mut keys);
    refined::metal(&points, &keys, tree.edges)
}

// The price of its metal. The list of bands is tested before there is a tree: 31, then 37.
#[tactic(auto, unfolding(net::specs::Answer::told_by, net::specs::Answer::number, price::specs::Price::priced))]
pub fn price(net: Net, pins: &[i32], macros: &[i32], bands: &[u64]) -> Result<u64, Refusal>
    requires { Counted net (handed net.weights) pins.now macros.now }
    ensures { told_price result ≡ priced (metal_of (handed net.weights) pins.now macros.now)
        bands.now }
{
    if bands::bands_miscounted(bands) {
        return Err(Refusal::Bands);
    }
    if bands::any_rate_above(bands) {
        return Err(Refusal::Bands);
    }
    if bands::any_step_back(bands) {
        return Err(Refusal::BandOrder);
    }
    price::by_first(metal(net, pins, macros), bands)
}
