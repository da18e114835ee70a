// The Elmore delay from a driver to each pin of a tree.
#![tactic(auto)]

pub mod loads; // loads.rt: the pins among a tree's points, and their loads

ghost use Rattle.std.specs.Prelude.{◌≡◌, ◌≤◌, ◌<◌, length};
ghost use Rattle.lent.specs.Over.{after};
ghost use Rattle.tree.specs.Table.{tree_bound};
ghost use Rattle.floats.specs.Mark.{finites, pins_from, marks_from};
ghost use Rattle.delay.specs.Answer.{unless_marked, told_delays};
ghost use Rattle.delay.specs.Table.{is_driver, driver_in, table_from};

use elmore::Visit;
use floats::Technology;
use net::Refusal;
use plane::Place;
use tree::{NUMBERS, POINTS, Size};

// Whether point i is the pin at q.
#[tactic(auto, unfolding(crate::specs::Table::is_driver, floats::specs::Mark::is_pin))]
fn is_driver(pts: &[i32; NUMBERS], pin: &[usize; POINTS], q: Place, i: usize) -> bool
    requires { i < tree_bound }
    ensures { result ≡ is_driver pts.now pin.now q i }
{
    pin[i] == 1 && plane::is_same_place(plane::place_at(pts, i), q)
}

// The number of the pin at q, or n.
// Kept: n for none, since `delays` asks that there is one: it would only take an Option apart again.
fn find(pts: &[i32; NUMBERS], pin: &[usize; POINTS], n: usize, q: Place) -> usize
    requires { n ≤ tree_bound }
    ensures { (result ≡ driver_in pts.now pin.now n q) × (result ≤ n) }
{
    for i in 0..n {
        if is_driver(pts, pin, q, i) {
            return i;
        }
    }
    n
}

// The delays to the m pins of a tree from the driver, which is one of them, in the order of places; all are worked out before the first is
// stored. What refuses a call whatever its tree, 21, 38 and 39, is said before there is one.
pub fn delays(
    pts: &[i32; NUMBERS],
    keys: &[usize; POINTS],
    z: Size,
    pin: &[usize; POINTS],
    loads: &[u64; POINTS],
    driver: Place,
    t: Technology,
    m: usize,
    lent: &mut [f64],
) -> Result<usize, Refusal>
    requires points_le_tree_bound { (z.points ≤ tree_bound) × ((z.edges ≤ tree_bound) × (m ≡ length (pins_from pin.now 0 z.points))) }
    requires m_in_bounds { (m ≤ length lent.old) × (driver_in pts.now pin.now z.points driver < z.points) }
    ensures result_value { told_delays result ≡ unless_marked m
        (marks_from (table_from pts.now keys.now z.edges loads.now t
        (driver_in pts.now pin.now z.points driver)) pin.now 0 z.points) }
    ensures lent_after { lent.new ≡ after (told_delays result)
        (finites (marks_from (table_from pts.now keys.now z.edges loads.now t
        (driver_in pts.now pin.now z.points driver)) pin.now 0 z.points)) lent.old }
{
    let d = find(pts, pin, z.points, driver);
    let top = Visit {
        up: d,
        point: d,
        left: z.edges,
    };
    let mut held = [0.0f64; POINTS];
    let mut whose = [0u32; POINTS];
    let mut table = [0.0f64; POINTS];
    elmore::lay(
        pts, keys, z.edges, loads, t, top, 0.0, &mut held, &mut whose, &mut table,
    );
    if floats::has_mark(&table, pin, z.points) {
        return Err(Refusal::DelayNotFinite);
    }
    floats::give(&table, pin, z.points, &mut *lent);
    Ok(m)
}
