// The published operations of the router. Each takes any two weights, any lists and any lent space and answers; nothing is asked of the
// caller. Totals are in cost, which the weights decide; metal is plain length.
//
// The contract of one that is lent space names one record (specs/Call.antt): the answer, as the rules have it, and what each lent list then
// holds, refused calls too. Those of check, price and check_tree, which are lent none, are one equation each.
// What the trees that are given are, and what is promised of them, is `Promised` (promises/specs/Published.antt).
#![tactic(auto)]

mod allowed; // allowed.rt: what goes on once the check has passed

ghost use Rattle.std.specs.Prelude.{◌≡◌};
ghost use Rattle.checks.specs.Check.{checked, told};
ghost use Rattle.price.specs.Price.{told_price};
ghost use Rattle.bought.specs.Verdict.{told_verdict};
ghost use Rattle.answers.specs.Graph.{graphed};
ghost use Rattle.answers.specs.Terminal.{terminal_tree};
ghost use Rattle.answers.specs.Refined.{refined_tree};
ghost use Rattle.answers.specs.Both.{both_trees};
ghost use Rattle.answers.specs.Slid.{slid_tree};
ghost use Rattle.answers.specs.Wires.{wired};
ghost use Rattle.answers.specs.Distances.{grid_distances};
ghost use Rattle.answers.specs.Delay.{pin_delays};
ghost use Rattle.answers.specs.Best.{best_tree};
ghost use Rattle.answers.specs.Bound.{lower_bound};
ghost use Rattle.answers.specs.Price.{net_price};
ghost use Rattle.answers.specs.Bought.{checked_tree};
ghost use Rattle.router.specs.Call.{GraphCall, TerminalCall, RefinedCall, BothCall, SlidCall, WiresCall, DistancesCall};
ghost use Rattle.router.specs.Call.{DelayCall, BestCall, BoundCall, WriteCall, ReadCall};

use bought::Sums;
use floats::Technology;
use net::{Net, Refusal, Weighing};
use plane::Place;
use results::Spanned;

// A terminal tree: how many paths were given, and their total.
#[derive(Clone, Copy)]
pub struct Terminal {
    pub paths: usize,
    pub total: i64,
}

// A refined tree, a slid tree or a best tree: how many edges were given, their total, and the metal to lay.
#[derive(Clone, Copy)]
pub struct Tree {
    pub edges: usize,
    pub total: i64,
    pub metal: i64,
}

// Both trees: the refined tree, of which edges were given, and the terminal tree's total.
#[derive(Clone, Copy)]
pub struct Both {
    pub tree: Tree,
    pub terminal: i64,
}

// Check a net: allowed, with its numbers of pins and macros, or the first of the refusals 11 to 18 that applies.
pub fn check(w: Weighing, pins: &[i32], macros: &[i32]) -> Result<Net, Refusal>
    ensures { told result ≡ checked w pins.now macros.now }
{
    checks::check(w, pins, macros)
}

// Graph: the vertices and the edges of the spanning graph, in order, or 11 to 18, then 21 where fewer than 2n numbers are lent for
// vertices or 16n for edges.
pub fn graph(
    w: Weighing,
    pins: &[i32],
    macros: &[i32],
    vertices: &mut [i32],
    edges: &mut [i32],
) -> Result<Spanned, Refusal>
    ensures { GraphCall graphed w pins.now macros.now vertices.old edges.old result
        vertices.new edges.new }
{
    let net = checks::check(w, pins, macros)?;
    allowed::graph(net, pins, macros, vertices, edges)
}

// Terminal tree: each kept path's bridge and length in the order kept, how many there are and their total, or 11 to 18, then 21 where
// fewer than 5m numbers are lent. That no joining is shorter and no chain has a lower longest path: `Promised`.
pub fn terminal_tree(
    w: Weighing,
    pins: &[i32],
    macros: &[i32],
    paths: &mut [i64],
) -> Result<Terminal, Refusal>
    ensures { TerminalCall terminal_tree w pins.now macros.now paths.old result paths.new }
{
    let net = checks::check(w, pins, macros)?;
    allowed::terminal_tree(net, pins, macros, paths)
}

// Refined tree: its edges in order, how many there are, their total and the metal to lay, or 11 to 18, then 21 where fewer than 4(n + m)
// numbers are lent. That they hold all pins as one tree, enter no interior and cost no more than the terminal tree: `Promised`.
pub fn refined_tree(
    w: Weighing,
    pins: &[i32],
    macros: &[i32],
    edges: &mut [i32],
) -> Result<Tree, Refusal>
    ensures { RefinedCall refined_tree w pins.now macros.now edges.old result edges.new }
{
    let both = both_trees(w, pins, macros, edges)?;
    Ok(both.tree)
}

// Both trees, from one graph: what the refined tree gives, and with it the terminal tree's total, or 11 to 18, then 21 as for the refined
// tree.
pub fn both_trees(
    w: Weighing,
    pins: &[i32],
    macros: &[i32],
    edges: &mut [i32],
) -> Result<Both, Refusal>
    ensures { BothCall both_trees w pins.now macros.now edges.old result edges.new }
{
    let net = checks::check(w, pins, macros)?;
    allowed::both_trees(net, pins, macros, edges)
}

// Slid tree: the refined tree's edges made straight, bars of them moved where that saves: its edges in order, how many there are, their
// total and the metal to lay, or 11 to 18, then 21 where fewer than 8(n + m) numbers are lent. That they hold all pins as one tree, enter
// no interior, are along one axis unless the refined tree is given back, and cost no more than it: `PromisedSlid` (specs/Slid.antt).
pub fn slid_tree(
    w: Weighing,
    pins: &[i32],
    macros: &[i32],
    edges: &mut [i32],
) -> Result<Tree, Refusal>
    ensures { SlidCall slid_tree w pins.now macros.now edges.old result edges.new }
{
    let net = checks::check(w, pins, macros)?;
    allowed::slid_tree(net, pins, macros, edges)
}

// Wires: those of the refined tree's edges, in order, and how many there are, or 11 to 18, then 21 where fewer than 8(n + m) numbers are
// lent. That each is along one axis, in its edge's box and clear: `Promised`.
pub fn wires(w: Weighing, pins: &[i32], macros: &[i32], wires: &mut [i32]) -> Result<usize, Refusal>
    ensures { WiresCall wired w pins.now macros.now wires.old result wires.new }
{
    let net = checks::check(w, pins, macros)?;
    allowed::wires(net, pins, macros, wires)
}

// Distances on the grid: the cheapest cost along the grid between every two pins, row by row in the order of places, and how many numbers
// that is, or 11 to 18, then 36 above 16 pins or 16 macros, then 21 where fewer than m times m numbers are lent. That no walk in clear unit
// steps is cheaper, nor any way along the spanning graph: `PromisedDistances` (specs/Distances.antt).
pub fn grid_distances(
    w: Weighing,
    pins: &[i32],
    macros: &[i32],
    table: &mut [i64],
) -> Result<usize, Refusal>
    ensures { DistancesCall grid_distances w pins.now macros.now table.old result table.new }
{
    let net = checks::check(w, pins, macros)?;
    allowed::grid_distances(net, pins, macros, table)
}

// Delay: the Elmore delay of the refined tree from a driver to each pin, in the order of places, and how many there are, or 11 to 18, then
// 21 where fewer than m numbers are lent, 38 for a technology that is not usable, 39 where the driver is no pin, 40 where a delay is not
// finite. That each point hangs once from the driver, and that delays are the same for every order of the lists: `PromisedDelay`,
// `SameDelays` (specs/Delay.antt).
pub fn delay(
    w: Weighing,
    pins: &[i32],
    macros: &[i32],
    driver: Place,
    t: Technology,
    delays: &mut [f64],
) -> Result<usize, Refusal>
    ensures { DelayCall pin_delays w pins.now macros.now driver t delays.old result
        delays.new }
{
    let net = checks::check(w, pins, macros)?;
    allowed::delay(net, pins, macros, driver, t, delays)
}

// Best tree: of up to five pins and sixteen macros, the edges in order of a tree along the grid, how many there are, their total and the
// metal to lay, or 11 to 18, then 41 for a larger net, then 21 where fewer than 65,536 numbers of work are lent, or fewer than 4(m + 2k)²
// for the edges. Which tree, where several cost the same, is left to the program, and the contract says so; that no metal clear of the
// macros joins all pins for less, on the grid or off it, in units or in fractions, that the check of bought-in trees passes it, and that no
// refined tree, no slid tree and no list that this check passes is cheaper: `PromisedBest` (specs/Best.antt). Of the work the first 65,536
// numbers are then 0 and the others as they were.
pub fn best_tree(
    w: Weighing,
    pins: &[i32],
    macros: &[i32],
    work: &mut [u32],
    edges: &mut [i32],
) -> Result<Tree, Refusal>
    ensures { BestCall best_tree w pins.now macros.now work.old edges.old result
        work.new edges.new }
{
    let net = checks::check(w, pins, macros)?;
    allowed::best_tree(net, pins, macros, work, edges)
}

// Lower bound: a number that no metal clear of the macros costs less than if it joins all pins, or 11 to 18, then 21 where fewer than
// 589,824 numbers are lent for `left` or 147,456 for `rows`. It is the greatest of four sweeps over the pins, which places, macros and
// weights settle: `Bound` (bound/specs/Bound.antt). That no edges of the grid, no metal in clear unit steps anywhere and no tree of clear
// edges costs less: `bound-holds`, `bound-metal` and `bound-tree` (bound/proofs/NetBound.antt). Of both lists the first so many numbers are
// then 0 and the others as they were.
pub fn lower_bound(
    w: Weighing,
    pins: &[i32],
    macros: &[i32],
    left: &mut [u32],
    rows: &mut [u64],
) -> Result<u64, Refusal>
    ensures { BoundCall lower_bound w pins.now macros.now left.old rows.old result
        left.new rows.new }
{
    let net = checks::check(w, pins, macros)?;
    allowed::lower_bound(net, pins, macros, left, rows)
}

// Price: what a bureau charges for the metal to lay, in hundredths of the currency, or 11 to 18, then 31, 37 and 32 for the bands: two
// numbers each, the most metal that the band reaches and its rate per 1,000 units. Metal is the refined tree's plain length (R22). That
// more metal is never charged less by one list: `NeverLess` (specs/Price.antt).
pub fn price(w: Weighing, pins: &[i32], macros: &[i32], bands: &[u64]) -> Result<u64, Refusal>
    ensures { told_price result ≡ net_price w pins.now macros.now bands.now }
{
    let net = checks::check(w, pins, macros)?;
    results::price(net, pins, macros, bands)
}

// Check a bought-in tree: what its edges, four numbers each, cost and their metal, or 11 to 18, then 33, 34 and 35, each over the whole
// list. Which lists pass, that the order of the edges and of their ends does not matter, and that every refined tree and every slid tree
// passes: `PromisedCheck` (specs/Bought.antt).
pub fn check_tree(w: Weighing, pins: &[i32], macros: &[i32], edges: &[i32]) -> Result<Sums, Refusal>
    ensures { told_verdict result ≡ checked_tree w pins.now macros.now edges.now }
{
    let net = checks::check(w, pins, macros)?;
    bought::check_tree(net.weights, pins, macros, edges)
}

// Write a net file: its number of bytes, or 11 to 18, then 21 where fewer bytes are lent than the file has.
pub fn write_file(
    w: Weighing,
    pins: &[i32],
    macros: &[i32],
    bytes: &mut [u8],
) -> Result<usize, Refusal>
    ensures { WriteCall w pins.now macros.now bytes.old result bytes.new }
{
    netfile::write(w, pins, macros, bytes)
}

// Read a net file: its numbers of pins and macros and its weights, or 21 where less than the largest net is lent, 1 to 3 for the file, 11
// to 17 for its lists.
pub fn read_file(bytes: &[u8], pins: &mut [i32], macros: &mut [i32]) -> Result<Net, Refusal>
    ensures { ReadCall bytes.now pins.old macros.old result pins.new macros.new }
{
    netfile::read(bytes, pins, macros)
}
