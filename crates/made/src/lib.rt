// The trees of an allowed net, each made in fresh tables: what the operations go on with once the check has passed. Each asks for what the
// check has shown, and for the room that the operation has found.
#![tactic(auto)]

ghost use Rattle.std.specs.Prelude.{◌≡◌, ◌*◌, ◌≤◌, pos, length, replicate};
ghost use Rattle.lent.specs.Over.{over};
ghost use Rattle.lent.specs.Entries.{flat};
ghost use Rattle.net.specs.Net.{net_of, handed};
ghost use Rattle.net.specs.Bounds.{tree_bound};
ghost use Rattle.net.specs.Pins.{pin_count};
ghost use Rattle.terminal.specs.Tree.{paths_of, total_of, path_numbers};
ghost use Rattle.terminal.specs.Tables.{Fresh, Worked};
ghost use Rattle.union.specs.Union.{union_of};
ghost use Rattle.refiner.specs.Refined.{Answer};
ghost use Rattle.refined.specs.Ground.{ground_of};
ghost use Rattle.made.specs.Counted.{Counted};
ghost use Rattle.made.specs.Tables.{begun, worked_in};
ghost use Rattle.made.specs.Trees.{refined_part};

use net::Net;
use terminal::{EDGE_NUMBERS, EDGES, POINTS, TerminalTree, VERTEX_NUMBERS};

// What is known of both trees besides the refined tree's tables: how many points and edges these hold, their total, and the terminal
// tree's.
#[derive(Clone, Copy)]
pub struct Trees {
    pub points: usize,
    pub edges: usize,
    pub total: u64,
    pub terminal: u64,
}

// The tables that a terminal tree is worked out in.
#[derive(Drop)]
struct Tables {
    vertices: [i32; VERTEX_NUMBERS],
    edges: [i32; EDGE_NUMBERS],
    ea: [usize; EDGES],
    eb: [usize; EDGES],
    el: [u64; EDGES],
    pin: [usize; POINTS],
    far: [u64; POINTS],
    root: [usize; POINTS],
    up: [usize; POINTS],
    via: [usize; POINTS],
    kept: [usize; EDGES],
    long: [u64; EDGES],
}

// Blank ones, written where they are bound: a constant or a function's result is built beside them, for 170 KiB of stack more.
macro_rules! blank {
    () => {
        Tables {
            vertices: [0; VERTEX_NUMBERS],
            edges: [0; EDGE_NUMBERS],
            ea: [0; EDGES],
            eb: [0; EDGES],
            el: [0; EDGES],
            pin: [0; POINTS],
            far: [0; POINTS],
            root: [0; POINTS],
            up: [0; POINTS],
            via: [0; POINTS],
            kept: [0; EDGES],
            long: [0; EDGES],
        }
    };
}

// The terminal tree of an allowed net, in tables that are blank.
fn work(net: Net, pins: &[i32], macros: &[i32], t: &mut Tables) -> TerminalTree
    requires counted { Counted net (handed net.weights) pins.now macros.now }
    requires fresh { Fresh (begun t.old) }
    ensures { Worked (net_of (handed net.weights) pins.now macros.now) (begun t.old) (worked_in t.new) result }
{
    t.far.fill(forest::UNREACHED);
    t.up.fill(POINTS);
    t.via.fill(EDGES);
    terminal::terminal_tree(
        net.weights,
        pins,
        macros,
        &mut t.vertices,
        &mut t.edges,
        &mut t.ea,
        &mut t.eb,
        &mut t.el,
        &mut t.pin,
        &mut t.far,
        &mut t.root,
        &mut t.up,
        &mut t.via,
        &mut t.kept,
        &mut t.long,
    )
}

// The terminal tree of an allowed net, its paths given.
pub fn terminal_tree(net: Net, pins: &[i32], macros: &[i32], paths: &mut [i64]) -> TerminalTree
    requires counted { Counted net (handed net.weights) pins.now macros.now }
    requires pins_in_bounds { pin_count pins.now * 5 ≤ length paths.old }
    ensures kept_value { result.kept ≡ length (paths_of (net_of (handed net.weights) pins.now macros.now)) }
    ensures total_value { result.total ≡ total_of (net_of (handed net.weights) pins.now macros.now) }
    ensures paths_after { paths.new ≡ over (flat path_numbers (paths_of (net_of (handed net.weights) pins.now
        macros.now))) paths.old }
{
    let mut t = blank!();
    let tree = work(net, pins, macros, &mut t);
    terminal::give_paths(&t.edges, &t.kept, &t.long, tree.kept, paths);
    tree
}

// The refined tree of an allowed net, in tables that are fresh, and the total of the terminal tree that it is refined from.
pub fn refine(
    net: Net,
    pins: &[i32],
    macros: &[i32],
    points: &mut [i32; tree::NUMBERS],
    keys: &mut [usize; tree::POINTS],
) -> Trees
    requires counted { Counted net (handed net.weights) pins.now macros.now }
    requires points_value { (points.old ≡ replicate (tree_bound * 2) (pos 0)) × (keys.old ≡ replicate tree_bound 0) }
    ensures answer { Answer (net_of (handed net.weights) pins.now macros.now)
        (ground_of (net_of (handed net.weights) pins.now macros.now))
        (union_of (net_of (handed net.weights) pins.now macros.now)) points.new keys.new
        (refined_part result) }
    ensures terminal_value { result.terminal ≡ total_of (net_of (handed net.weights) pins.now macros.now) }
{
    let mut t = blank!();
    let tree = work(net, pins, macros, &mut t);
    let start = union::start(
        &t.vertices,
        tree.points,
        &t.ea,
        &t.eb,
        &t.el,
        tree.edges,
        &t.pin,
        tree.pins,
        &t.far,
        &t.up,
        &t.via,
        &t.kept,
        tree.kept,
        points,
        keys,
    );
    let refined = refiner::refine(
        net,
        pins,
        macros,
        points,
        start.points,
        keys,
        start.edges,
        &t.vertices,
        tree.points,
        &t.ea,
        &t.eb,
        &t.el,
        tree.edges,
    );
    Trees {
        points: refined.points,
        edges: refined.edges,
        total: refined.total,
        terminal: tree.total,
    }
}
