// The best tree of a net of up to five pins: read back from the rows of its table, and given; the table is cleared.
#![tactic(auto)]

ghost use Rattle.std.specs.Prelude.{◌≡◌, ◌+◌, ◌*◌, ◌-◌, ◌^◌, ◌≤◌, ◌<◌, length, get_or, replicate, MatchOption};
ghost use Rattle.joined.specs.Cost.{lengths};
ghost use Rattle.lent.specs.Over.{over};
ghost use Rattle.lent.specs.Entries.{flat};
ghost use Rattle.plane.specs.Distance.{distance};
ghost use Rattle.plane.specs.Cost.{cost_limit};
ghost use Rattle.graph.specs.Numbers.{edge_numbers};
ghost use Rattle.net.specs.Pins.{pin_count, macro_count};
ghost use Rattle.net.specs.Net.{net_with};
ghost use Rattle.net.specs.Allowed.{Allowed};
ghost use Rattle.lines.specs.Bounds.{grid_macros, crossing_bound, segment_bound};
ghost use Rattle.grid.specs.Tables.{target};
ghost use Rattle.parts.specs.Bounds.{best_pins, work_bound};
ghost use Rattle.traced.specs.Routes.{in_their_order, edge_at, marked_edges, LengthOf, MarkedPut};
ghost use Rattle.best.specs.Tree.{BestOver};

use lines::{Axis, Grid};
use plane::{Place, Weights};

// How many edges a best tree has, what they cost and the metal to lay. The bounds of a net that gets one are named here.
#[derive(Clone, Copy)]
pub struct Best {
    pub edges: usize,
    pub total: u64,
    pub metal: u64,
}

impl Best {
    pub const PINS: usize = 5;

    // Sets of all pins but the first.
    pub const MASKS: usize = 16;

    pub const WORK: usize = 65536;
}

// Sets, and the work

// How many sets of all but one of m pins there are.
fn masks(m: usize) -> usize
    requires { (1 ≤ m) × (m ≤ best_pins) }
    ensures { result ≡ 2 ^ (m - 1) }
{
    1 << (m - 1)
}

// The first n numbers of a lent list are cleared.
pub fn clear(work: &mut [u32], n: usize)
    requires { n ≤ length work.old }
    ensures { work.new ≡ over (replicate n 0) work.old }
{
    work[..n].fill(0);
}

// The tree given

// The ends of the segment that comes j-th in the order of edges, if it is marked.
fn marked_at(
    xs: &[i32; Grid::LINES],
    ys: &[i32; Grid::LINES],
    used: &[usize; Grid::SEGMENTS],
    j: usize,
) -> Option<(Place, Place)>
    requires { (j < segment_bound) × (1 ≤ get_or used.now j 0 → target (in_their_order j) < crossing_bound) }
    ensures { MatchOption result (get_or used.now j 0 ≡ 0) (λ p. (1 ≤ get_or used.now j 0)
        × ((p.0 ≡ (edge_at xs.now ys.now j).0) × (p.1 ≡ (edge_at xs.now ys.now j).1))) }
{
    if used[j] == 0 {
        return None;
    }
    let k = traced::in_order(j);
    let p = grid::crossing(xs, ys, k / 2);
    let q = grid::crossing(xs, ys, grid::target(k));
    Some((p, q))
}

// That segment as the edge numbered `count` of a table, if it is marked; how many there are then.
fn put_marked(
    xs: &[i32; Grid::LINES],
    ys: &[i32; Grid::LINES],
    used: &[usize; Grid::SEGMENTS],
    j: usize,
    edges: &mut [i32],
    count: usize,
) -> usize
    requires j_lt_segment_bound { (j < segment_bound) × (1 ≤ get_or used.now j 0 → target (in_their_order j) < crossing_bound) }
    requires count_in_bounds { 1 ≤ get_or used.now j 0 → count * 4 + 4 ≤ length edges.old }
    ensures { MarkedPut xs.now ys.now used.now j count edges.old result
        edges.new }
{
    if let Some((p, q)) = marked_at(xs, ys, used, j) {
        graph::put_edge(edges, count, p, q);
        count + 1
    } else {
        count
    }
}

// The marked ones of the first e segments, in the order of edges; how many there are.
fn put_edges(
    xs: &[i32; Grid::LINES],
    ys: &[i32; Grid::LINES],
    used: &[usize; Grid::SEGMENTS],
    e: usize,
    edges: &mut [i32],
) -> usize
    requires e_le_segment_bound { (e ≤ segment_bound) × ((j : _) → j < e → 1 ≤ get_or used.now j 0 → target (in_their_order j) < crossing_bound) }
    requires e_in_bounds { length (marked_edges xs.now ys.now used.now e) * 4 ≤ length edges.old }
    ensures value { result ≡ length (marked_edges xs.now ys.now used.now e) }
    ensures edges_after { edges.new ≡ over (flat edge_numbers (marked_edges xs.now ys.now used.now e))
        edges.old }
{
    let mut count = 0;
    for j in 0..e {
        count = put_marked(xs, ys, used, j, edges, count);
    }
    count
}

// The plain length of the j-th segment, 0 where it is not marked.
fn marked_length(
    xs: &[i32; Grid::LINES],
    ys: &[i32; Grid::LINES],
    used: &[usize; Grid::SEGMENTS],
    j: usize,
) -> u64
    requires { (j < segment_bound) × (1 ≤ get_or used.now j 0 → target (in_their_order j) < crossing_bound) }
    ensures { (LengthOf xs.now ys.now used.now j result) × (result < cost_limit) }
{
    if let Some((p, q)) = marked_at(xs, ys, used, j) {
        plane::cost(Weights::PLAIN, p, q)
    } else {
        0
    }
}

// The metal to lay for the marked ones of the first e segments: their lengths added up, whatever the net's weights.
fn metal(
    xs: &[i32; Grid::LINES],
    ys: &[i32; Grid::LINES],
    used: &[usize; Grid::SEGMENTS],
    e: usize,
) -> u64
    requires { (e ≤ segment_bound) × ((j : _) → j < e → 1 ≤ get_or used.now j 0 → target (in_their_order j) < crossing_bound) }
    ensures { result ≡ lengths distance (marked_edges xs.now ys.now used.now e) }
{
    let mut sum = 0;
    for j in 0..e {
        sum += marked_length(xs, ys, used, j);
    }
    sum
}

// A best tree of an allowed net of at most five pins and sixteen macros, at the front of a lent list. Which one, where several cost the
// same, is left to the program. The work is cleared.
pub fn best_tree(
    w: Weights,
    pins: &[i32],
    macros: &[i32],
    work: &mut [u32],
    edges: &mut [i32],
) -> Best
    requires allowed { Allowed (net_with w pins.now macros.now) }
    requires pins_bound { (pin_count pins.now ≤ best_pins) × (macro_count macros.now ≤ grid_macros) }
    requires work_bound_in_bounds { (work_bound ≤ length work.old) × ((pin_count pins.now + macro_count macros.now * 2)
        * (pin_count pins.now + macro_count macros.now * 2) * 4 ≤ length edges.old) }
    ensures best_over { BestOver (net_with w pins.now macros.now) edges.old edges.new result.edges
        result.total result.metal }
    ensures work_after { work.new ≡ over (replicate work_bound 0) work.old }
{
    let mut xs = [0i32; Grid::LINES];
    let mut ys = [0i32; Grid::LINES];
    let across = lines::lines(Axis::Across, pins, macros, &mut xs);
    let along = lines::lines(Axis::Along, pins, macros, &mut ys);
    let grid = Grid { across, along };
    let mut costs = [0u32; Grid::SEGMENTS];
    let e = grid::put_costs(w, macros, grid, &xs, &ys, &mut costs);
    let mut numbers = [0usize; Grid::PINS];
    lines::number_pins(grid, &xs, &ys, pins, &mut numbers);
    let m = net::pin_count(pins);
    let n = masks(m);
    parts::fill(&costs, e, &numbers, m - 1, n, work);
    let mut used = [0usize; Grid::SEGMENTS];
    let total = traced::read_back(work, &costs, e, m - 1, n, numbers[0], &mut used);
    let metal = metal(&xs, &ys, &used, e);
    let edges = put_edges(&xs, &ys, &used, e, edges);
    clear(work, Best::WORK);
    Best {
        edges,
        total,
        metal,
    }
}
