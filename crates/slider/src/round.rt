// A round: the best move of all bars made; and rounds until one saves nothing.
ghost use Rattle.std.specs.Prelude.{◌≡◌, true, false, MatchOption, ◌*◌, ◌≤◌, length};
ghost use Rattle.net.specs.Net.{net_with};
ghost use Rattle.slide.specs.Slide.{in_their_order, rounds};
ghost use Rattle.slide.specs.Promise.{State};
ghost use Rattle.straight.specs.Table.{straight_bound, Within};
ghost use Rattle.labels.specs.Labelling.{labels_for};
ghost use Rattle.settled.specs.Settled.{edges_of};
ghost use Rattle.shifted.specs.Shift.{shifted, Movable};
ghost use Rattle.slider.specs.Round.{saves};

use plane::Weights;
use shifted::Shift;
use straight::{EDGE_NUMBERS, NUMBERS, POINTS};
use tree::Size;

// The edges after the move: a bar's label is one of rows where it is horizontal, else one of columns.
fn shift_bar(
    pts: &[i32; NUMBERS],
    keys: &[usize; POINTS],
    z: Size,
    rows: &[usize; POINTS],
    columns: &[usize; POINTS],
    m: Shift,
    out: &mut [i32],
) -> usize
    requires points_le_straight_bound { (z.points ≤ straight_bound) × ((z.edges ≤ straight_bound) × (Within z.points keys.now)) }
    requires movable { (Movable m pts.now z.points (labels_for m.side rows.now columns.now)) × (z.edges * 4 ≤ length out.old) }
    ensures { (edges_of out.new result ≡ shifted m pts.now
        (labels_for m.side rows.now columns.now) keys.now z.edges) × (result ≤ z.edges) }
{
    let lab = if moves::is_horizontal(m.side) {
        rows
    } else {
        columns
    };
    shifted::shift_edges(pts, z.points, keys, z.edges, lab, m, out)
}

// The edges after the move, in order, in a list of their own; how many there are.
fn make(
    pts: &[i32; NUMBERS],
    keys: &[usize; POINTS],
    z: Size,
    rows: &[usize; POINTS],
    columns: &[usize; POINTS],
    m: Shift,
    list: &mut [i32],
) -> usize
    requires points_le_straight_bound { (z.points ≤ straight_bound) × ((z.edges ≤ straight_bound) × (Within z.points keys.now)) }
    requires movable { (Movable m pts.now z.points (labels_for m.side rows.now columns.now))
        × (length list.old ≡ straight_bound * 4) }
    ensures { edges_of list.new result ≡ in_their_order (shifted m pts.now
        (labels_for m.side rows.now columns.now) keys.now z.edges) }
{
    let mut out = [0i32; EDGE_NUMBERS];
    let count = shift_bar(pts, keys, z, rows, columns, m, &mut out);
    settled::sort_edges(&out, count, list)
}

// The best move of all bars made: how many edges there are then, or None where it saves nothing.
fn round(w: Weights, pins: &[i32], macros: &[i32], list: &mut [i32], e: usize) -> Option<usize>
    requires state { State (net_with w pins.now macros.now) (edges_of list.old e) }
    requires list_len { length list.old ≡ straight_bound * 4 }
    ensures { MatchOption result
        ((saves (net_with w pins.now macros.now) (edges_of list.old e) ≡ false)
        × (edges_of list.new e ≡ rounds (net_with w pins.now macros.now) 1 (edges_of list.old e)))
        (λ left. (saves (net_with w pins.now macros.now) (edges_of list.old e) ≡ true)
        × (edges_of list.new left ≡ rounds (net_with w pins.now macros.now) 1 (edges_of list.old e))) }
{
    let mut pts = [0i32; NUMBERS];
    let mut keys = [0; POINTS];
    let z = settled::settle(pins, list, e, &mut pts, &mut keys);
    let mut rows = [0; POINTS];
    let mut columns = [0; POINTS];
    let size = reach::Size {
        points: z.points,
        edges: z.edges,
        pins: net::pin_count(pins),
        weights: w,
    };
    let chosen = bars::choice(&pts, &keys, size, pins, macros, &mut rows, &mut columns);
    let best = chosen.best;
    if best.saving == 0 {
        return None;
    }
    let m = Shift {
        label: chosen.label,
        side: best.side,
        distance: best.distance,
    };
    Some(make(&pts, &keys, z, &rows, &columns, m, list))
}

// At most n rounds from the first e edges; how many edges there are then.
pub fn rounds(
    w: Weights,
    pins: &[i32],
    macros: &[i32],
    list: &mut [i32],
    e: usize,
    n: usize,
) -> usize
    requires state { State (net_with w pins.now macros.now) (edges_of list.old e) }
    requires list_len { length list.old ≡ straight_bound * 4 }
    ensures { (edges_of list.new result
        ≡ rounds (net_with w pins.now macros.now) n (edges_of list.old e)) × (result ≤ straight_bound) }
{
    let mut count = e;
    for _ in 0..n {
        let Some(left) = round(w, pins, macros, list, count) else {
            return count;
        };
        count = left;
    }
    count
}
