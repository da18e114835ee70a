// A number that no tree of a net goes below: heights above each pin, raised one after the other on the grid.
//
// Arc a leads to crossing a / 4 from its neighbour: on the right, on the left, above, below. Its number in the lent table is what is left
// of its cost and one more, 0 where there is no edge. A row has a height for each crossing.
#![tactic(auto)]

ghost use Rattle.std.specs.Prelude.{◌≡◌, ◌+◌, ◌/◌, ◌%◌, ◌≤◌, ◌<◌, length, replicate};
ghost use Rattle.grid.specs.Rows.{at, Below};
ghost use Rattle.sweeps.specs.Tables.{
  wide_lines,
  wide_crossings,
  arc_bound,
  far,
  offset,
  source,
  ArcsFit,
  Row,
  Above,
  Passed,
  Quiet,
  fall,
  TakenOff,
  Lessened,
  LeastAt,
  SweptTable,
};

use net::Net;

// The bounds of the tables.
#[derive(Clone, Copy)]
pub struct Wide {
    pub lines: usize,
}

impl Wide {
    // Lines along one axis: one a pin and two a macro.
    pub const LINES: usize = 384;

    pub const CROSSINGS: usize = 147456;

    pub const ARCS: usize = 589824;

    // Above what all edges of a grid cost together.
    pub const FAR: u64 = 18874368000001;
}

// How far the number of the neighbour in a direction is above that of the crossing one line further left.
#[tactic(auto, unfolding(crate::specs::Tables::offset))]
fn offset(i: usize) -> usize
    ensures { (result ≡ offset i) × (result ≤ 768) }
{
    match i {
        0 => 768,
        1 => 0,
        2 => 385,
        _ => 383,
    }
}

// The crossing that an arc comes from.
pub fn source(a: usize) -> usize
    requires { (a < arc_bound) × (wide_lines ≤ a / 4 + offset (a % 4)) }
    ensures { result ≡ source a }
{
    a / 4 + offset(a % 4) - Wide::LINES
}

// A visit of arc a: the height it comes from is lowered to that it leads to, if that is below the cap, and what is left of it; whether
// it was.
fn visit(left: &[u32], row: &mut [u64], cap: u64, a: usize) -> bool
    requires { (ArcsFit left.now) × ((Row row.old) × (a < arc_bound)) }
    ensures { Passed left.now cap (λ b. b ≡ a) result row.old row.new }
{
    let d = row[a / 4];
    if cap <= d {
        return false;
    }
    let s = left[a];
    if s == 0 {
        return false;
    }
    let u = source(a);
    let x = d + u64::from(s - 1);
    if x < row[u] {
        row[u] = x;
        return true;
    }
    false
}

// The first e arcs visited, the first one first; whether a height was lowered.
fn pass_up(left: &[u32], row: &mut [u64], cap: u64, e: usize) -> bool
    requires { (ArcsFit left.now) × ((Row row.old) × (e ≤ arc_bound)) }
    ensures { Passed left.now cap (λ a. a < e) result row.old row.new }
{
    let mut moved = false;
    for a in 0..e {
        moved |= visit(left, row, cap, a);
    }
    moved
}

// The same, the last one first.
fn pass_down(left: &[u32], row: &mut [u64], cap: u64, e: usize) -> bool
    requires { (ArcsFit left.now) × ((Row row.old) × (e ≤ arc_bound)) }
    ensures { Passed left.now cap (λ a. a < e) result row.old row.new }
{
    let mut moved = false;
    for a in (0..e).rev() {
        moved |= visit(left, row, cap, a);
    }
    moved
}

// Each height of a row put to x.
pub fn fill(row: &mut [u64], x: u64)
    requires { length row.old ≡ wide_crossings }
    ensures { row.new ≡ replicate wide_crossings x }
{
    row.fill(x);
}

// The row that crossing q starts with: 0 there, and no way elsewhere.
fn start(row: &mut [u64], q: usize)
    requires { (length row.old ≡ wide_crossings) × (q < wide_crossings) }
    ensures { (Row row.new) × ((left : _) → Above left q row.new) }
{
    fill(row, Wide::FAR);
    row[q] = 0;
}

// The least height at the first n of some crossings.
fn nearest(row: &[u64], numbers: &[usize; Net::PINS], n: usize) -> u64
    requires row { (Row row.now) × ((n ≤ 128) × (length numbers.now ≡ 128)) }
    requires below { Below wide_crossings numbers.now }
    ensures { LeastAt row.now numbers.now n result }
{
    let mut t = Wide::FAR;
    for i in 0..n {
        t = row[numbers[i]].min(t);
    }
    t
}

// Passes down and up until one up changes nothing, below the least height so far at the first n of some crossings; that height.
fn settle(
    left: &[u32],
    row: &mut [u64],
    numbers: &[usize; Net::PINS],
    n: usize,
    e: usize,
    q: usize,
) -> u64
    requires arcs_fit { (ArcsFit left.now) × ((Row row.old) × (e ≤ arc_bound)) }
    requires n_bound { (n ≤ 128) × ((length numbers.now ≡ 128) × (Below wide_crossings numbers.now)) }
    requires above { Above left.now q row.old }
    ensures row { (Row row.new) × (Above left.now q row.new) }
    ensures least_at { (LeastAt row.new numbers.now n result) × (Quiet left.now e result row.new) }
{
    let mut cap = Wide::FAR;
    loop {
        pass_down(left, row, cap, e);
        let more = pass_up(left, row, cap, e);
        cap = nearest(row, numbers, n);
        if !more {
            return cap;
        }
    }
}

// Arc a with the fall of the heights, cut at t, taken off.
fn take_off(left: &mut [u32], row: &[u64], t: u64, a: usize)
    requires arcs_fit { (ArcsFit left.old) × ((Row row.now) × (a < arc_bound)) }
    requires a_bound { 1 ≤ at left.old a → fall row.now t a + 1 ≤ at left.old a }
    ensures { TakenOff row.now t a left.old left.new }
{
    let low = row[a / 4];
    if t <= low {
        return;
    }
    let s = left[a];
    if s == 0 {
        return;
    }
    let high = row[source(a)].min(t);
    if low < high {
        left[a] = s - (high - low) as u32;
    }
}

// The first e arcs with the falls taken off.
fn lessen(left: &mut [u32], row: &[u64], t: u64, e: usize)
    requires arcs_fit { (ArcsFit left.old) × ((Row row.now) × (e ≤ arc_bound)) }
    requires quiet { Quiet left.old e t row.now }
    ensures { Lessened row.now t e left.old left.new }
{
    for a in 0..e {
        take_off(left, row, t, a);
    }
}

// One raise: the heights above crossing i until the nearest of those before it, taken off what is left; how high.
fn raise(left: &mut [u32], row: &mut [u64], numbers: &[usize; Net::PINS], i: usize, e: usize) -> u64
    requires arcs_fit { (ArcsFit left.old) × ((length row.old ≡ wide_crossings) × (e ≤ arc_bound)) }
    requires i_bound { (i < 128) × ((length numbers.now ≡ 128) × (Below wide_crossings numbers.now)) }
    ensures row { (Row row.new) × ((Above left.old (at numbers.now i) row.new)
        × (Quiet left.old e result row.new)) }
    ensures least_at { (LeastAt row.new numbers.now i result)
        × (Lessened row.new result e left.old left.new) }
    ensures arcs_fit_2 { ArcsFit left.new }
{
    let q = numbers[i];
    start(row, q);
    let t = settle(left, row, numbers, i, e, q);
    lessen(left, row, t, e);
    t
}

// The sum of the raises of the first m of some crossings, the last one first, each until it meets one before it.
pub fn sweep(
    left: &mut [u32],
    row: &mut [u64],
    numbers: &[usize; Net::PINS],
    m: usize,
    e: usize,
) -> u64
    requires arcs_fit { (ArcsFit left.old) × ((length row.old ≡ wide_crossings) × (e ≤ arc_bound)) }
    requires m_bound { (m ≤ 128) × ((length numbers.now ≡ 128) × (Below wide_crossings numbers.now)) }
    ensures swept_table { SweptTable numbers.now e left.old m result }
    ensures row_len { (length row.new ≡ wide_crossings) × (ArcsFit left.new) }
{
    let mut sum = 0;
    for i in (1..m).rev() {
        sum += raise(left, row, numbers, i, e);
    }
    sum
}
