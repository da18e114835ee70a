// What the operations do with an allowed net: each asks for what the check has shown, refuses by 21 where too little is lent, and gives.
ghost use Rattle.std.specs.Prelude.{◌≡◌, true, ◌*◌, ◌≤◌, length};
ghost use Rattle.lists.specs.Any.{any};
ghost use Rattle.lent.specs.Over.{after};
ghost use Rattle.plane.specs.Place.{same_place};
ghost use Rattle.net.specs.Net.{handed};
ghost use Rattle.net.specs.Pins.{pin_places};
ghost use Rattle.floats.specs.Mark.{finites};
ghost use Rattle.delay.specs.Answer.{unless_marked, told_delays};
ghost use Rattle.made.specs.Counted.{Counted};
ghost use Rattle.answers.specs.Graph.{graph_given};
ghost use Rattle.answers.specs.Terminal.{terminal_given};
ghost use Rattle.answers.specs.Both.{both_given};
ghost use Rattle.laid.specs.Edges.{edges_of, laid_bound};
ghost use Rattle.answers.specs.Slid.{slid_of, slid_given};
ghost use Rattle.answers.specs.Wires.{wires_given};
ghost use Rattle.answers.specs.Distances.{distances_given};
ghost use Rattle.answers.specs.Delay.{delays_of, delay_given};
ghost use Rattle.answers.specs.Best.{best_given};
ghost use Rattle.answers.specs.Bound.{bound_given};
ghost use Rattle.router.specs.Call.{GraphCall, TerminalCall, BothCall, SlidCall, WiresCall, DistancesCall, DelayCall, BestCall};
ghost use Rattle.router.specs.Call.{BoundCall};

use crate::{Both, Terminal, Tree};
use best::Best;
use floats::Technology;
use lines::Grid;
use net::{Net, Refusal};
use plane::Place;
use results::Spanned;
use straight::EDGE_NUMBERS as EDGE_TABLE;
use sweeps::Wide;
use tree::Size;

// The graph.
pub fn graph(
    net: Net,
    pins: &[i32],
    macros: &[i32],
    vertices: &mut [i32],
    edges: &mut [i32],
) -> Result<Spanned, Refusal>
    requires { Counted net (handed net.weights) pins.now macros.now }
    ensures { GraphCall graph_given (handed net.weights) pins.now macros.now vertices.old
        edges.old result vertices.new edges.new }
{
    if room::graph_short(net, vertices.len(), edges.len()) {
        return Err(Refusal::Space);
    }
    Ok(results::graph(net, pins, macros, vertices, edges))
}

// The terminal tree.
pub fn terminal_tree(
    net: Net,
    pins: &[i32],
    macros: &[i32],
    paths: &mut [i64],
) -> Result<Terminal, Refusal>
    requires { Counted net (handed net.weights) pins.now macros.now }
    ensures { TerminalCall terminal_given (handed net.weights) pins.now macros.now paths.old result
        paths.new }
{
    if room::paths_short(net, paths.len()) {
        return Err(Refusal::Space);
    }
    let tree = made::terminal_tree(net, pins, macros, paths);
    Ok(Terminal {
        paths: tree.kept,
        total: tree.total as i64,
    })
}

// Both trees: the edges of the refined one, and the totals of both.
pub fn both_trees(
    net: Net,
    pins: &[i32],
    macros: &[i32],
    edges: &mut [i32],
) -> Result<Both, Refusal>
    requires { Counted net (handed net.weights) pins.now macros.now }
    ensures { BothCall both_given (handed net.weights) pins.now macros.now edges.old result
        edges.new }
{
    if room::edges_short(net, edges.len()) {
        return Err(Refusal::Space);
    }
    let laid = results::edges(net, pins, macros, edges);
    let tree = Tree {
        edges: laid.edges,
        total: laid.total as i64,
        metal: laid.metal as i64,
    };
    Ok(Both {
        tree,
        terminal: laid.terminal as i64,
    })
}

// The slid tree.
pub fn slid_tree(net: Net, pins: &[i32], macros: &[i32], edges: &mut [i32]) -> Result<Tree, Refusal>
    requires { Counted net (handed net.weights) pins.now macros.now }
    ensures { SlidCall slid_given (handed net.weights) pins.now macros.now edges.old result
        edges.new }
{
    if room::wires_short(net, edges.len()) {
        return Err(Refusal::Space);
    }
    let mut table = [0i32; EDGE_TABLE];
    let count = slide(net, pins, macros, &mut table);
    let total = laid::total(net.weights, &table, count);
    let metal = laid::metal(&table, count);
    laid::give(&table, count, edges);
    Ok(Tree {
        edges: count,
        total: total as i64,
        metal: metal as i64,
    })
}

// The wires.
pub fn wires(net: Net, pins: &[i32], macros: &[i32], wires: &mut [i32]) -> Result<usize, Refusal>
    requires { Counted net (handed net.weights) pins.now macros.now }
    ensures { WiresCall wires_given (handed net.weights) pins.now macros.now wires.old result
        wires.new }
{
    if room::wires_short(net, wires.len()) {
        return Err(Refusal::Space);
    }
    Ok(results::wires(net, pins, macros, wires))
}

// The delays. What refuses them whatever the tree is said before there is one: 21, then 38, then 39.
pub fn delay(
    net: Net,
    pins: &[i32],
    macros: &[i32],
    driver: Place,
    t: Technology,
    delays: &mut [f64],
) -> Result<usize, Refusal>
    requires { Counted net (handed net.weights) pins.now macros.now }
    ensures { DelayCall delay_given (handed net.weights) pins.now macros.now driver t delays.old result
        delays.new }
{
    let usable = floats::is_usable(t);
    let found = net::is_pin(pins, driver);
    if delays.len() < net.pins {
        return Err(Refusal::Space);
    }
    if !usable {
        return Err(Refusal::TechnologyRange);
    }
    if !found {
        return Err(Refusal::DriverNotPin);
    }
    time(net, pins, macros, driver, t, delays)
}

// The delays along the refined tree from a driver that is a pin, or 40.
fn time(
    net: Net,
    pins: &[i32],
    macros: &[i32],
    driver: Place,
    t: Technology,
    delays: &mut [f64],
) -> Result<usize, Refusal>
    requires counted { Counted net (handed net.weights) pins.now macros.now }
    requires pins_in_bounds { (net.pins ≤ length delays.old) × (any (same_place driver) (pin_places pins.now) ≡ true) }
    ensures result_value { told_delays result ≡ unless_marked net.pins
        (delays_of (handed net.weights) pins.now macros.now driver t) }
    ensures delays_after { delays.new ≡ after (told_delays result)
        (finites (delays_of (handed net.weights) pins.now macros.now driver t)) delays.old }
{
    let mut points = [0i32; tree::NUMBERS];
    let mut keys = [0usize; tree::POINTS];
    let tree = made::refine(net, pins, macros, &mut points, &mut keys);
    let mut pin = [0usize; tree::POINTS];
    let mut loads = [0u64; tree::POINTS];
    delay::loads::load(pins, &points, tree.points, &mut pin, &mut loads);
    let size = Size {
        points: tree.points,
        edges: tree.edges,
    };
    delay::delays(
        &points, &keys, size, &pin, &loads, driver, t, net.pins, delays,
    )
}

// The slid tree of an allowed net as a flat list of edges, in a table that is fresh; how many there are.
fn slide(net: Net, pins: &[i32], macros: &[i32], table: &mut [i32]) -> usize
    requires counted { Counted net (handed net.weights) pins.now macros.now }
    requires table_len { length table.old ≡ laid_bound * 4 }
    ensures { edges_of table.new result ≡ slid_of (handed net.weights) pins.now macros.now }
{
    let mut points = [0i32; tree::NUMBERS];
    let mut keys = [0usize; tree::POINTS];
    let tree = made::refine(net, pins, macros, &mut points, &mut keys);
    refined::give_edges(&points, &keys, tree.edges, table);
    slider::slide(net.weights, pins, macros, table, tree.edges)
}

// The distances on the grid.
pub fn grid_distances(
    net: Net,
    pins: &[i32],
    macros: &[i32],
    table: &mut [i64],
) -> Result<usize, Refusal>
    requires { Counted net (handed net.weights) pins.now macros.now }
    ensures { DistancesCall distances_given (handed net.weights) pins.now macros.now table.old result
        table.new }
{
    if (Grid::PINS < net.pins) | (Grid::MACROS < net.macros) {
        return Err(Refusal::GridSize);
    }
    let n = net.pins * net.pins;
    if table.len() < n {
        return Err(Refusal::Space);
    }
    grid::distances(net.weights, pins, macros, table);
    Ok(n)
}

// A best tree.
pub fn best_tree(
    net: Net,
    pins: &[i32],
    macros: &[i32],
    work: &mut [u32],
    edges: &mut [i32],
) -> Result<Tree, Refusal>
    requires { Counted net (handed net.weights) pins.now macros.now }
    ensures { BestCall best_given (handed net.weights) pins.now macros.now work.old
        edges.old result work.new edges.new }
{
    if (Best::PINS < net.pins) | (Grid::MACROS < net.macros) {
        return Err(Refusal::BestSize);
    }
    let lines = net.pins + net.macros * 2;
    let n = lines * lines * 4;
    if (work.len() < Best::WORK) | (edges.len() < n) {
        return Err(Refusal::Space);
    }
    let best = best::best_tree(net.weights, pins, macros, work, edges);
    Ok(Tree {
        edges: best.edges,
        total: best.total as i64,
        metal: best.metal as i64,
    })
}

// The lower bound.
pub fn lower_bound(
    net: Net,
    pins: &[i32],
    macros: &[i32],
    left: &mut [u32],
    rows: &mut [u64],
) -> Result<u64, Refusal>
    requires { Counted net (handed net.weights) pins.now macros.now }
    ensures { BoundCall bound_given (handed net.weights) pins.now macros.now left.old
        rows.old result left.new rows.new }
{
    if (left.len() < Wide::ARCS) | (rows.len() < Wide::CROSSINGS) {
        return Err(Refusal::Space);
    }
    Ok(bound::lower_bound(net.weights, pins, macros, left, rows))
}
