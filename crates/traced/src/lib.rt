// A tree read back from the rows of a table of costs: its edges marked, in the order of edges.
#![tactic(auto)]

ghost use Rattle.std.specs.Prelude.{◌≡◌, ◌+◌, ◌≤◌, ◌<◌, length, MatchOption};
ghost use Rattle.lines.specs.Bounds.{crossing_bound, segment_bound};
ghost use Rattle.grid.specs.Tables.{Row, Fits};
ghost use Rattle.parts.specs.Bounds.{mask_bound};
ghost use Rattle.parts.specs.Tables.{RowsTo};
ghost use Rattle.traced.specs.Routes.{
  in_their_order,
  other_end,
  touches,
  segment_at,
  leads,
  meets,
  StepFound,
  PartFound,
  Walked,
  Traced,
  ReadBack,
};

use lines::Grid;

// Steps down a row

// Where a segment stands in the order of edges, and the other way.
pub fn in_order(k: usize) -> usize
    requires { k < segment_bound }
    ensures { (result ≡ in_their_order k) × (result < segment_bound) }
{
    if k % 2 == 0 { k + 1 } else { k - 1 }
}

// The other end of segment k.
fn other_end(k: usize, v: usize) -> usize
    requires { k < segment_bound }
    ensures { result ≡ other_end k v }
{
    if k / 2 == v { grid::target(k) } else { k / 2 }
}

// Whether v is an end of segment k.
fn touches(k: usize, v: usize) -> bool
    requires { k < segment_bound }
    ensures { result ≡ touches k v }
{
    k / 2 == v || grid::target(k) == v
}

// Whether segment k is an edge at v by which the number at v is had.
fn leads(
    costs: &[u32; Grid::SEGMENTS],
    e: usize,
    row: &[u32; Grid::CROSSINGS],
    v: usize,
    k: usize,
) -> bool
    requires fits { (Fits costs.now e) × (k < e) }
    requires row { (Row row.now) × (v < crossing_bound) }
    ensures { result ≡ leads costs.now row.now v k }
{
    let c = costs[k];
    c != 0 && touches(k, v) && row[other_end(k, v)] + c == row[v]
}

// The four segments at v, in the order of their numbers: the i-th, unless it would come from outside the lines.
#[tactic(auto, unfolding(crate::specs::Routes::segment_at))]
fn segment_at(v: usize, i: usize) -> Option<usize>
    requires { (v < crossing_bound) × (i < 4) }
    ensures { MatchOption result (segment_at v i ≡ segment_bound) (λ k. k ≡ segment_at v i) }
{
    match i {
        0 => Some(v.checked_sub(Grid::LINES)? * 2),
        1 => (v * 2).checked_sub(1),
        _ => Some(v * 2 + (i - 2)),
    }
}

// A segment by which the number at v is had, if there is one.
fn step_from(
    costs: &[u32; Grid::SEGMENTS],
    e: usize,
    row: &[u32; Grid::CROSSINGS],
    v: usize,
) -> Option<usize>
    requires fits { Fits costs.now e }
    requires row { (Row row.now) × (v < crossing_bound) }
    ensures { MatchOption result (StepFound costs.now e row.now v e) (λ k. (k < e) × StepFound costs.now e row.now v k) }
{
    for i in 0..4 {
        if let Some(k) = segment_at(v, i)
            && k < e
            && leads(costs, e, row, v, k)
        {
            return Some(k);
        }
    }
    None
}

// Down a row from v as far as it goes, the edges marked; the crossing where it ends.
// Kept: marks are numbers, as `Marked` and `marks` say, which theorems name.
fn walk(
    costs: &[u32; Grid::SEGMENTS],
    e: usize,
    row: &[u32; Grid::CROSSINGS],
    v: usize,
    used: &mut [usize; Grid::SEGMENTS],
) -> usize
    requires fits { (Fits costs.now e) × (length used.old ≡ segment_bound) }
    requires row { (Row row.now) × (v < crossing_bound) }
    ensures { (Walked costs.now e row.now v result used.old used.new) × (result < crossing_bound) }
{
    let mut u = v;
    while let Some(k) = step_from(costs, e, row, u) {
        used[in_order(k)] = 1;
        u = other_end(k, u);
    }
    u
}

// From a set to its parts

// Whether the number of s at v is that of its part p and of the rest.
fn meets(work: &[u32], m: usize, s: usize, v: usize, p: usize) -> bool
    requires rows_to { (RowsTo (s + 1) work.now) × ((s < mask_bound) × (v < crossing_bound)) }
    requires le_p { (1 ≤ p) × (p < s) }
    ensures { result ≡ meets m work.now s v p }
{
    parts::is_part(m, p, s) && parts::sum_at(work, p, s - p, v) == work[s * Grid::CROSSINGS + v]
}

// A part of s by which its number at v is had, if there is one.
fn part_from(work: &[u32], m: usize, s: usize, v: usize) -> Option<usize>
    requires { (RowsTo (s + 1) work.now) × ((s < mask_bound) × (v < crossing_bound)) }
    ensures { MatchOption result (PartFound m work.now s v 0) (λ p. (1 ≤ p) × PartFound m work.now s v p) }
{
    for p in 1..s {
        if meets(work, m, s, v, p) {
            return Some(p);
        }
    }
    None
}

// The edges of a tree that joins v with the pins of s marked: down the row of s, then the trees of two parts. The set falls.
fn trace(
    work: &[u32],
    costs: &[u32; Grid::SEGMENTS],
    e: usize,
    m: usize,
    s: usize,
    v: usize,
    used: &mut [usize; Grid::SEGMENTS],
)
    requires fits { (Fits costs.now e) × (length used.old ≡ segment_bound) }
    requires rows_to { (RowsTo (s + 1) work.now) × (((1 ≤ s) × (s < mask_bound)) × (v < crossing_bound)) }
    ensures { Traced costs.now e m work.now s v used.old used.new }
{
    let mut row = [0u32; Grid::CROSSINGS];
    parts::get_row(work, s, &mut row);
    let u = walk(costs, e, &row, v, used);
    if let Some(p) = part_from(work, m, s, u) {
        trace(work, costs, e, m, p, u, used);
        trace(work, costs, e, m, s - p, u, used);
    }
}

// The same from crossing v for the last of n sets, unless there is none; what the tree costs.
pub fn read_back(
    work: &[u32],
    costs: &[u32; Grid::SEGMENTS],
    e: usize,
    m: usize,
    n: usize,
    v: usize,
    used: &mut [usize; Grid::SEGMENTS],
) -> u64
    requires fits { (Fits costs.now e) × (length used.old ≡ segment_bound) }
    requires rows_to { (RowsTo n work.now) × (((1 ≤ n) × (n ≤ mask_bound)) × (v < crossing_bound)) }
    ensures { ReadBack costs.now e m work.now n v used.old used.new result }
{
    if n < 2 {
        return 0;
    }
    trace(work, costs, e, m, n - 1, v, used);
    u64::from(work[(n - 1) * Grid::CROSSINGS + v])
}
