// The table of a best tree: a row of costs for each set of all pins but the first, settled on the grid from the sums of its parts.
//
// A set is a number, a bit a pin. Its row in the lent work has a number for each crossing: what it costs to join that crossing with the
// pins of the set.
#![tactic(auto)]

ghost use Rattle.std.specs.Prelude.{◌≡◌, ◌+◌, ◌≤◌, ◌<◌, length, replicate, MatchOption};
ghost use Rattle.lines.specs.Bounds.{crossing_bound, unreached};
ghost use Rattle.grid.specs.Rows.{Below};
ghost use Rattle.grid.specs.Tables.{Row, Fits, Near};
ghost use Rattle.parts.specs.Bounds.{best_pins, mask_bound, work_bound};
ghost use Rattle.parts.specs.Numbers.{part_of};
ghost use Rattle.parts.specs.Tables.{value_at, row_of, RowsTo, lone_pin, Tried, Begun, RowPut, RowFilled, FilledTo};

use lines::Grid;

// Sets as numbers

// Each of the first m bits of p is one of s. Bit by bit, since `p & !s` would ask the others too.
pub fn is_part(m: usize, p: usize, s: usize) -> bool
    ensures { result ≡ part_of m p s }
{
    let mut a = p;
    let mut b = s;
    for _ in 0..m {
        if b % 2 < a % 2 {
            return false;
        }
        a /= 2;
        b /= 2;
    }
    true
}

// The number of the one pin of a set, unless it has more pins.
#[tactic(auto, unfolding(crate::specs::Tables::lone_pin))]
fn lone_pin(s: usize) -> Option<usize>
    ensures { MatchOption result (lone_pin s ≡ 0) (λ i. (i ≡ lone_pin s) × ((1 ≤ i) × (i < best_pins))) }
{
    match s {
        1 => Some(1),
        2 => Some(2),
        4 => Some(3),
        8 => Some(4),
        _ => None,
    }
}

// The start of a row

// What crossing v costs with the pins of p and the pins of q.
pub fn sum_at(work: &[u32], p: usize, q: usize, v: usize) -> u32
    requires work_bound_in_bounds { (work_bound ≤ length work.now) × (((p < mask_bound) × (q < mask_bound)) × (v < crossing_bound)) }
    requires v_bound { (value_at work.now p v ≤ unreached) × (value_at work.now q v ≤ unreached) }
    ensures { result ≡ value_at work.now p v + value_at work.now q v }
{
    work[p * Grid::CROSSINGS + v] + work[q * Grid::CROSSINGS + v]
}

// The numbers of a row lowered to what the part p of s costs with the rest of s; as they were where p is no part.
fn try_part(work: &[u32], m: usize, s: usize, p: usize, row: &mut [u32; Grid::CROSSINGS])
    requires rows_to { (RowsTo s work.now) × (s < mask_bound) }
    requires le_p { ((1 ≤ p) × (p < s)) × (Row row.old) }
    ensures { Tried m (value_at work.now) s p row.old row.new }
{
    if is_part(m, p, s) {
        for v in 0..Grid::CROSSINGS {
            row[v] = sum_at(work, p, s - p, v).min(row[v]);
        }
    }
}

// The row that set s starts with, from one in which no crossing is reached: 0 at a lone pin, else the least sums. Of a part and the rest
// one is tried, the one with the smaller number.
fn begin(
    work: &[u32],
    numbers: &[usize; Grid::PINS],
    m: usize,
    s: usize,
    row: &mut [u32; Grid::CROSSINGS],
)
    requires rows_to { (RowsTo s work.now) × ((1 ≤ s) × (s < mask_bound)) }
    requires below { (Below crossing_bound numbers.now) × (row.old ≡ replicate crossing_bound unreached) }
    ensures { Begun m numbers.now work.now s row.new }
{
    match lone_pin(s) {
        Some(i) => grid::start(row, numbers[i]),
        None => {
            for p in 1..s / 2 + 1 {
                try_part(work, m, s, p, row);
            }
        }
    }
}

// Rows of the work

// A row into the work as that of set s.
fn put_row(row: &[u32; Grid::CROSSINGS], s: usize, work: &mut [u32])
    requires { (work_bound ≤ length work.old) × (s < mask_bound) }
    ensures { RowPut s row.now work.old work.new }
{
    let from = s * Grid::CROSSINGS;
    work[from..from + Grid::CROSSINGS].copy_from_slice(row);
}

// The row of set s out of the work.
pub fn get_row(work: &[u32], s: usize, row: &mut [u32; Grid::CROSSINGS])
    requires work_bound_in_bounds { (work_bound ≤ length work.now) × (s < mask_bound) }
    requires row_len { length row.old ≡ crossing_bound }
    ensures { row.new ≡ row_of work.now s }
{
    let from = s * Grid::CROSSINGS;
    row.copy_from_slice(&work[from..from + Grid::CROSSINGS]);
}

// The row of set s settled from its start, into the work.
fn fill_row(
    costs: &[u32; Grid::SEGMENTS],
    e: usize,
    numbers: &[usize; Grid::PINS],
    m: usize,
    s: usize,
    work: &mut [u32],
)
    requires fits { (Fits costs.now e) × (Below crossing_bound numbers.now) }
    requires rows_to { (RowsTo s work.old) × ((1 ≤ s) × (s < mask_bound)) }
    ensures { RowFilled (Near costs.now e) m numbers.now s work.old work.new }
{
    let mut row = [Grid::UNREACHED; Grid::CROSSINGS];
    begin(work, numbers, m, s, &mut row);
    grid::settle(costs, e, &mut row);
    put_row(&row, s, work);
}

// The rows of all sets below n.
pub fn fill(
    costs: &[u32; Grid::SEGMENTS],
    e: usize,
    numbers: &[usize; Grid::PINS],
    m: usize,
    n: usize,
    work: &mut [u32],
)
    requires fits { (Fits costs.now e) × (Below crossing_bound numbers.now) }
    requires work_bound_in_bounds { (work_bound ≤ length work.old) × ((1 ≤ n) × (n ≤ mask_bound)) }
    ensures { FilledTo (Near costs.now e) m numbers.now n work.old work.new }
{
    for s in 1..n {
        fill_row(costs, e, numbers, m, s, work);
    }
}
