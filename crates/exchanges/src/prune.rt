// Pruning: points that are no pins and have a single edge go.
ghost use Rattle.std.specs.Prelude.{◌≡◌, ◌≤◌, ◌<◌, ◌*◌, MatchOption};
ghost use Rattle.net.specs.Pins.{pin_places};
ghost use Rattle.lists.specs.Turns.{turns};
ghost use Rattle.tree.specs.Table.{tree_bound, pair_bound, row, tree, Small, Low};
ghost use Rattle.exchanges.specs.Prune.{count_ends, loose, loose_edge, first_loose, mark, prune, pruned};

use crate::exchange;
use tree::{NUMBERS, POINTS};

#[tactic(auto, unfolding(crate::specs::Prune::mark, crate::specs::Prune::mark_of))]
fn mark(pins: &[i32], pts: &[i32; NUMBERS], i: usize, pin: &mut [usize; POINTS])
    requires { i < tree_bound }
    ensures { pin.new ≡ mark (pin_places pins.now) pts.now i pin.old }
{
    pin[i] = usize::from(net::is_pin(pins, tree::point_at(pts, i)));
}

fn mark_pins(pins: &[i32], pts: &[i32; NUMBERS], n: usize, pin: &mut [usize; POINTS])
    requires { n ≤ tree_bound }
    ensures { pin.new ≡ turns (mark (pin_places pins.now) pts.now) 0 n pin.old }
{
    for i in 0..n {
        mark(pins, pts, i, pin);
    }
}

#[tactic(auto, unfolding(crate::specs::Prune::count_ends))]
fn count_ends(keys: &[usize; POINTS], i: usize, deg: &mut [usize; POINTS])
    requires { (i < tree_bound) × ((Small pair_bound keys.now) × (Low (tree_bound * 2) deg.old)) }
    ensures { deg.new ≡ count_ends keys.now i deg.old }
{
    let a = keys[i] / POINTS;
    let b = keys[i] % POINTS;
    deg[a] += 1;
    deg[b] += 1;
}

fn degrees(keys: &[usize; POINTS], e: usize, deg: &mut [usize; POINTS])
    requires { (e ≤ tree_bound) × ((Small pair_bound keys.now) × (Low 0 deg.old)) }
    ensures { deg.new ≡ turns (count_ends keys.now) 0 e deg.old }
{
    for i in 0..e {
        count_ends(keys, i, deg);
    }
}

// No pin, and a single edge.
#[tactic(auto, unfolding(crate::specs::Prune::loose))]
fn is_loose(pin: &[usize; POINTS], deg: &[usize; POINTS], v: usize) -> bool
    requires { v < tree_bound }
    ensures { result ≡ loose pin.now deg.now v }
{
    pin[v] == 0 && deg[v] == 1
}

#[tactic(auto, unfolding(crate::specs::Prune::loose_edge))]
fn is_loose_edge(
    pin: &[usize; POINTS],
    deg: &[usize; POINTS],
    keys: &[usize; POINTS],
    i: usize,
) -> bool
    requires { (i < tree_bound) × (Small pair_bound keys.now) }
    ensures { result ≡ loose_edge pin.now deg.now keys.now i }
{
    let k = keys[i];
    is_loose(pin, deg, k / POINTS) || is_loose(pin, deg, k % POINTS)
}

// The first edge with a loose end.
fn first_loose(pin: &[usize; POINTS], keys: &[usize; POINTS], e: usize) -> Option<usize>
    requires { (e ≤ tree_bound) × (Small pair_bound keys.now) }
    ensures { MatchOption result (first_loose pin.now keys.now e ≡ e) (λ i. (i ≡ first_loose pin.now keys.now e) × (i < e)) }
{
    let mut deg = [0; POINTS];
    degrees(keys, e, &mut deg);
    for i in 0..e {
        if is_loose_edge(pin, &deg, keys, i) {
            return Some(i);
        }
    }
    None
}

// Edges with a loose end taken out until there is none; how many are left.
pub fn prune(pin: &[usize; POINTS], keys: &mut [usize; POINTS], e: usize) -> usize
    requires { (e ≤ tree_bound) × (Small pair_bound keys.old) }
    ensures { row keys.new result ≡ prune pin.now keys.old e }
{
    let mut f = e;
    while let Some(i) = first_loose(pin, keys, f) {
        f -= 1;
        exchange::remove(keys, f, i);
    }
    f
}

// What is left of the first e edges when points that are no pins and have a single edge are gone; how many edges that is.
pub fn prune_points(
    pins: &[i32],
    pts: &[i32; NUMBERS],
    n: usize,
    keys: &mut [usize; POINTS],
    e: usize,
) -> usize
    requires { (n ≤ tree_bound) × ((e ≤ tree_bound) × (Small pair_bound keys.old)) }
    ensures { row keys.new result ≡ (pruned (pin_places pins.now)
        (tree pts.now n keys.old e)).edges }
{
    let mut pin = [0; POINTS];
    mark_pins(pins, pts, n, &mut pin);
    prune(&pin, keys, e)
}
