// The router's operations for C: the static library. A slice passes as a pointer and a length, the weights as a number each. The caller
// sees to it that each pointer has that length behind it, and that what is lent to be written overlaps nothing else that is handed over.
// Each contract names one record of specs/Handed.antt: the code, each lent list and each number that goes through a pointer.
#![tactic(auto, unfolding(net::specs::Answer::told_by, lent::specs::Told::code, lent::specs::Over::value_after))]

ghost use Rattle.std.specs.Prelude.{◌≡◌, pos, length};
ghost use Rattle.lent.specs.Told.{code};
ghost use Rattle.lent.specs.Over.{value_after};
ghost use Rattle.lent.specs.Entries.{flat};
ghost use Rattle.plane.specs.Place.{place};
ghost use Rattle.net.specs.Net.{weighing, weights_of, net_of};
ghost use Rattle.net.specs.Answer.{told_by};
ghost use Rattle.checks.specs.Check.{checked};
ghost use Rattle.graph.specs.Numbers.{place_numbers, edge_numbers};
ghost use Rattle.terminal.specs.Tree.{path_numbers};
ghost use Rattle.answers.specs.Graph.{net_vertices, net_edges, graphed};
ghost use Rattle.answers.specs.Terminal.{paths_of, terminal_tree};
ghost use Rattle.answers.specs.Refined.{laid_of, refined_tree};
ghost use Rattle.answers.specs.Slid.{slid_of, slid_tree};
ghost use Rattle.answers.specs.Wires.{wires_of, wired};
ghost use Rattle.answers.specs.Distances.{grid_distances};
ghost use Rattle.elmore.specs.Elmore.{technology};
ghost use Rattle.floats.specs.Mark.{finites};
ghost use Rattle.answers.specs.Delay.{delays_of, pin_delays};
ghost use Rattle.answers.specs.Best.{best_tree};
ghost use Rattle.answers.specs.Bound.{lower_bound};
ghost use Rattle.answers.specs.Price.{net_price};
ghost use Rattle.answers.specs.Bought.{checked_tree};
ghost use Rattle.encoded.specs.Layout.{file_bytes};
ghost use Rattle.decoded.specs.Held.{pins_in, macros_in};
ghost use Rattle.netfile.specs.Write.{written};
ghost use Rattle.netfile.specs.Read.{read_file};
ghost use Rattle.router.specs.Answers.{told_tree};
ghost use Rattle.exports.specs.Handed.{GraphHanded, PathsHanded, TreeHanded, BestHanded, ListHanded, SquareHanded};
ghost use Rattle.exports.specs.Handed.{BoundHanded, ChargeHanded, SumsHanded, NetHanded};

use floats::Technology;
use net::{Refusal, Weighing};
use plane::Place;
use router::Tree;

// The two weights as one.
fn weighing(x: i32, y: i32) -> Weighing
    ensures { result ≡ weighing x y }
{
    Weighing {
        first: x,
        second: y,
    }
}

// The driver's place as one.
fn place(x: i32, y: i32) -> Place
    ensures { result ≡ place x y }
{
    Place { x, y }
}

// The two numbers of a technology as one.
fn technology(resistance: f64, capacitance: f64) -> Technology
    ensures { result ≡ technology resistance capacitance }
{
    Technology {
        resistance,
        capacitance,
    }
}

// 0 and what the operation gives, or the number of the refusal.
fn give<T: Copy>(answer: Result<T, Refusal>, place: &mut T) -> i32
    ensures told { result ≡ pos (code (told_by (λ v. v) answer)) }
    ensures value { place.new ≡ value_after (λ v. v) (told_by (λ v. v) answer) place.old }
{
    match answer {
        Ok(value) => {
            *place = value;
            0
        }
        Err(refusal) => refusal.number(),
    }
}

// 0 and the three numbers of a tree, or the number of the refusal.
fn give_tree(
    answer: Result<Tree, Refusal>,
    count: &mut usize,
    total: &mut i64,
    metal: &mut i64,
) -> i32
    ensures told { result ≡ pos (code (told_tree answer)) }
    ensures edges { count.new ≡ value_after (λ tree. tree.0) (told_tree answer) count.old }
    ensures sum { total.new ≡ value_after (λ tree. tree.1.0) (told_tree answer) total.old }
    ensures laid { metal.new ≡ value_after (λ tree. tree.1.1) (told_tree answer) metal.old }
{
    match answer {
        Ok(tree) => {
            *count = tree.edges;
            *total = tree.total;
            *metal = tree.metal;
            0
        }
        Err(refusal) => refusal.number(),
    }
}

// 0 for an allowed net, or the number of the refusal.
#[unsafe(no_mangle)]
pub extern "C" fn calzundi_check(pins: &[i32], macros: &[i32], x: i32, y: i32) -> i32
    ensures { result ≡ pos (code (checked (weighing x y) pins.now macros.now)) }
{
    let weights = weighing(x, y);
    match router::check(weights, pins, macros) {
        Ok(_) => 0,
        Err(refusal) => refusal.number(),
    }
}

// 0 and the numbers of vertices and edges given, or the number of the refusal.
#[unsafe(no_mangle)]
pub extern "C" fn calzundi_graph(
    pins: &[i32],
    macros: &[i32],
    x: i32,
    y: i32,
    vertices: &mut [i32],
    edges: &mut [i32],
    v: &mut usize,
    e: &mut usize,
) -> i32
    ensures { GraphHanded
        (graphed (weighing x y) pins.now macros.now (length vertices.old)
        (length edges.old))
        (flat place_numbers (net_vertices (weighing x y) pins.now macros.now))
        (flat edge_numbers (net_edges (weighing x y) pins.now macros.now))
        vertices.old edges.old v.old e.old result
        vertices.new edges.new v.new e.new }
{
    let weights = weighing(x, y);
    match router::graph(weights, pins, macros, vertices, edges) {
        Ok(spanned) => {
            *v = spanned.vertices;
            *e = spanned.edges;
            0
        }
        Err(refusal) => refusal.number(),
    }
}

// 0, the number of paths given and their total, or the number of the refusal.
#[unsafe(no_mangle)]
pub extern "C" fn calzundi_terminal_tree(
    pins: &[i32],
    macros: &[i32],
    x: i32,
    y: i32,
    paths: &mut [i64],
    count: &mut usize,
    total: &mut i64,
) -> i32
    ensures { PathsHanded
        (terminal_tree (weighing x y) pins.now macros.now (length paths.old))
        (flat path_numbers (paths_of (weighing x y) pins.now macros.now))
        paths.old count.old total.old result
        paths.new count.new total.new }
{
    let weights = weighing(x, y);
    match router::terminal_tree(weights, pins, macros, paths) {
        Ok(tree) => {
            *count = tree.paths;
            *total = tree.total;
            0
        }
        Err(refusal) => refusal.number(),
    }
}

// 0, the number of edges given, their total and the metal to lay, or the number of the refusal.
#[unsafe(no_mangle)]
pub extern "C" fn calzundi_refined_tree(
    pins: &[i32],
    macros: &[i32],
    x: i32,
    y: i32,
    edges: &mut [i32],
    count: &mut usize,
    total: &mut i64,
    metal: &mut i64,
) -> i32
    ensures { TreeHanded
        (refined_tree (weighing x y) pins.now macros.now (length edges.old))
        (flat edge_numbers (laid_of (weighing x y) pins.now macros.now))
        edges.old count.old total.old metal.old result
        edges.new count.new total.new metal.new }
{
    let weights = weighing(x, y);
    give_tree(
        router::refined_tree(weights, pins, macros, edges),
        count,
        total,
        metal,
    )
}

// 0, the number of edges given, their total and the metal to lay, or the number of the refusal.
#[unsafe(no_mangle)]
pub extern "C" fn calzundi_slid_tree(
    pins: &[i32],
    macros: &[i32],
    x: i32,
    y: i32,
    edges: &mut [i32],
    count: &mut usize,
    total: &mut i64,
    metal: &mut i64,
) -> i32
    ensures { TreeHanded
        (slid_tree (weighing x y) pins.now macros.now (length edges.old))
        (flat edge_numbers (slid_of (weighing x y) pins.now macros.now))
        edges.old count.old total.old metal.old result
        edges.new count.new total.new metal.new }
{
    let weights = weighing(x, y);
    give_tree(
        router::slid_tree(weights, pins, macros, edges),
        count,
        total,
        metal,
    )
}

// 0, the number of edges given, their total and the metal to lay, or the number of the refusal.
#[unsafe(no_mangle)]
pub extern "C" fn calzundi_best_tree(
    pins: &[i32],
    macros: &[i32],
    x: i32,
    y: i32,
    work: &mut [u32],
    edges: &mut [i32],
    count: &mut usize,
    total: &mut i64,
    metal: &mut i64,
) -> i32
    ensures { BestHanded (net_of (weighing x y) pins.now macros.now)
        (best_tree (weighing x y) pins.now macros.now (length work.old) (length edges.old))
        work.old edges.old count.old total.old metal.old result
        work.new edges.new count.new total.new metal.new }
{
    let weights = weighing(x, y);
    give_tree(
        router::best_tree(weights, pins, macros, work, edges),
        count,
        total,
        metal,
    )
}

// 0 and the lower bound, or the number of the refusal. Both lists of work are cleared.
#[unsafe(no_mangle)]
pub extern "C" fn calzundi_lower_bound(
    pins: &[i32],
    macros: &[i32],
    x: i32,
    y: i32,
    left: &mut [u32],
    rows: &mut [u64],
    bound: &mut u64,
) -> i32
    ensures { BoundHanded (net_of (weighing x y) pins.now macros.now)
        (lower_bound (weighing x y) pins.now macros.now (length left.old) (length rows.old))
        left.old rows.old bound.old result
        left.new rows.new bound.new }
{
    let weights = weighing(x, y);
    give(
        router::lower_bound(weights, pins, macros, left, rows),
        bound,
    )
}

// 0 and the number of wires given, or the number of the refusal.
#[unsafe(no_mangle)]
pub extern "C" fn calzundi_wires(
    pins: &[i32],
    macros: &[i32],
    x: i32,
    y: i32,
    wires: &mut [i32],
    count: &mut usize,
) -> i32
    ensures { ListHanded
        (wired (weighing x y) pins.now macros.now (length wires.old))
        (flat edge_numbers (wires_of (weighing x y) pins.now macros.now))
        wires.old count.old result wires.new count.new }
{
    let weights = weighing(x, y);
    give(router::wires(weights, pins, macros, wires), count)
}

// 0 and how many numbers were given, or the number of the refusal.
#[unsafe(no_mangle)]
pub extern "C" fn calzundi_grid_distances(
    pins: &[i32],
    macros: &[i32],
    x: i32,
    y: i32,
    table: &mut [i64],
    count: &mut usize,
) -> i32
    ensures { SquareHanded (net_of (weighing x y) pins.now macros.now)
        (grid_distances (weighing x y) pins.now macros.now (length table.old))
        table.old count.old result table.new count.new }
{
    let weights = weighing(x, y);
    give(router::grid_distances(weights, pins, macros, table), count)
}

// 0 and the number of delays given, or the number of the refusal. The driver's place is u and v.
#[unsafe(no_mangle)]
pub extern "C" fn calzundi_delay(
    pins: &[i32],
    macros: &[i32],
    x: i32,
    y: i32,
    u: i32,
    v: i32,
    resistance: f64,
    capacitance: f64,
    delays: &mut [f64],
    count: &mut usize,
) -> i32
    ensures { ListHanded
        (pin_delays (weighing x y) pins.now macros.now (place u v) (technology resistance capacitance)
        (length delays.old))
        (finites (delays_of (weighing x y) pins.now macros.now (place u v)
        (technology resistance capacitance)))
        delays.old count.old result delays.new count.new }
{
    let weights = weighing(x, y);
    let driver = place(u, v);
    let t = technology(resistance, capacitance);
    give(
        router::delay(weights, pins, macros, driver, t, delays),
        count,
    )
}

// 0 and the charge, in hundredths of the currency, or the number of the refusal.
#[unsafe(no_mangle)]
pub extern "C" fn calzundi_price(
    pins: &[i32],
    macros: &[i32],
    x: i32,
    y: i32,
    bands: &[u64],
    charge: &mut u64,
) -> i32
    ensures { ChargeHanded
        (net_price (weighing x y) pins.now macros.now bands.now)
        charge.old result charge.new }
{
    let weights = weighing(x, y);
    give(router::price(weights, pins, macros, bands), charge)
}

// 0, what the edges cost and their metal, or the number of the refusal.
#[unsafe(no_mangle)]
pub extern "C" fn calzundi_check_tree(
    pins: &[i32],
    macros: &[i32],
    x: i32,
    y: i32,
    edges: &[i32],
    cost: &mut i64,
    metal: &mut i64,
) -> i32
    ensures { SumsHanded
        (checked_tree (weighing x y) pins.now macros.now edges.now)
        cost.old metal.old result cost.new metal.new }
{
    let weights = weighing(x, y);
    match router::check_tree(weights, pins, macros, edges) {
        Ok(sums) => {
            *cost = sums.cost;
            *metal = sums.metal;
            0
        }
        Err(refusal) => refusal.number(),
    }
}

// 0 and the number of bytes given, or the number of the refusal.
#[unsafe(no_mangle)]
pub extern "C" fn calzundi_write_file(
    pins: &[i32],
    macros: &[i32],
    x: i32,
    y: i32,
    bytes: &mut [u8],
    given: &mut usize,
) -> i32
    ensures { ListHanded
        (written (weighing x y) pins.now macros.now (length bytes.old))
        (file_bytes (weights_of (weighing x y)) pins.now macros.now)
        bytes.old given.old result bytes.new given.new }
{
    let weights = weighing(x, y);
    give(router::write_file(weights, pins, macros, bytes), given)
}

// 0, the numbers of pins and macros and the two weights, or the number of the refusal.
#[unsafe(no_mangle)]
pub extern "C" fn calzundi_read_file(
    bytes: &[u8],
    pins: &mut [i32],
    macros: &mut [i32],
    m: &mut usize,
    k: &mut usize,
    x: &mut i32,
    y: &mut i32,
) -> i32
    ensures { NetHanded
        (read_file bytes.now (length pins.old) (length macros.old))
        (pins_in bytes.now) (macros_in bytes.now) pins.old macros.old
        (record { m = m.old; k = k.old; x = x.old; y = y.old }) result
        pins.new macros.new
        (record { m = m.new; k = k.new; x = x.new; y = y.new }) }
{
    match router::read_file(bytes, pins, macros) {
        Ok(net) => {
            let weights = Weighing::from(net.weights);
            *m = net.pins;
            *k = net.macros;
            *x = weights.first;
            *y = weights.second;
            0
        }
        Err(refusal) => refusal.number(),
    }
}

// The library's version, a thousand times the first number and the second. include/calzundi.h has it in words, and a test holds both.
#[unsafe(no_mangle)]
pub extern "C" fn calzundi_version() -> u32
    ensures { result ≡ 2010 }
{
    2010
}

// A name that says since which version lists mean what they do: three numbers a pin, with two weights. The header refers to it, so that a
// library whose lists mean something else is not linked. Where the meaning of a list changes, the name does.
#[unsafe(no_mangle)]
pub extern "C" fn calzundi_lists_since_1_12() -> u32
    ensures { result ≡ 3 }
{
    3
}
