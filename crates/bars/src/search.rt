// The best move of all bars.
ghost use Rattle.std.specs.Prelude.{◌≡◌, ◌≤◌, ◌<◌, get_or};
ghost use Rattle.net.specs.Bounds.{pin_bound};
ghost use Rattle.straight.specs.Table.{straight_bound, Small};
ghost use Rattle.slide.specs.declared.Side.TheVariants.{Above, Below, Right, Left};
ghost use Rattle.turned.specs.Steps.{Numbers};
ghost use Rattle.turned.specs.Turned.{view};
ghost use Rattle.hanging.specs.Hanging.{hang, Coded, Tallied};
ghost use Rattle.moves.specs.Moving.{Seated, opposite};
ghost use Rattle.bars.specs.Offers.{Needed, offered, offered_both, searched};

use crate::Best;
use moves::PINS;
use reach::Size;
use slide::{Move, Side};
use straight::{NUMBERS, POINTS};

// By less than this a move at this rate saves less than the best so far; at least one.
fn needed(best: Move, rate: u64) -> u64
    ensures { Needed best.saving rate result }
{
    if best.saving < rate || rate == 0 {
        1
    } else {
        best.saving / rate
    }
}

// The best so far, or the move of the bar with label l to side s. The distance is asked last: it looks at
// everything, or stops where the move cannot be the best.
fn offer(
    pts: &[i32; NUMBERS],
    keys: &[usize; POINTS],
    z: Size,
    macros: &[i32],
    seats: &[usize; PINS],
    lab: &[usize; POINTS],
    hangs: &[u64; POINTS],
    s: Side,
    l: usize,
    c: Best,
) -> Best
    requires points_le_straight_bound { ((z.points ≤ straight_bound) × (z.edges ≤ straight_bound)) × ((Small keys.now) × (l < straight_bound)) }
    requires pins_le_pin_bound { (z.pins ≤ pin_bound) × (Seated z.pins seats.now) }
    requires coded { Coded z.edges (hang (view pts.now keys.now lab.now s l) z.edges) (get_or hangs.now l 0) }
    ensures { result ≡ offered (view pts.now keys.now lab.now s l) z macros.now
        seats.now c }
{
    let h = hanging::hang_at(hangs, l);
    if h.ahead <= h.behind {
        return c;
    }
    let rate = (h.ahead - h.behind) as u64 * moves::weight_of(z.weights, s);
    let most = Move {
        saving: h.shortest * rate,
        first: straight::point_at(pts, l),
        side: s,
        distance: h.shortest,
    };
    if !moves::is_better(most, c.best) || moves::is_held(seats, z.pins, lab, l) {
        return c;
    }
    let d = reach::reach(
        pts,
        keys,
        z,
        lab,
        macros,
        moves::bar_of(pts, lab, z.points, s, l, h.shortest),
        needed(c.best, rate),
    );
    let best = Move {
        saving: d * rate,
        distance: d,
        ..most
    };
    if moves::is_better(best, c.best) {
        Best { label: l, best }
    } else {
        c
    }
}

// The bar of edge k to both sides of the direction s, if the edge is a first one of it. What hangs there and back is known.
fn offer_both(
    pts: &[i32; NUMBERS],
    keys: &[usize; POINTS],
    z: Size,
    macros: &[i32],
    seats: &[usize; PINS],
    lab: &[usize; POINTS],
    there: &[u64; POINTS],
    back: &[u64; POINTS],
    s: Side,
    k: usize,
    c: Best,
) -> Best
    requires points_le_straight_bound { (((z.points ≤ straight_bound) × (z.edges ≤ straight_bound)) × (Small keys.now))
        × ((k < straight_bound) × (Numbers lab.now)) }
    requires pins_le_pin_bound { (z.pins ≤ pin_bound) × (Seated z.pins seats.now) }
    requires tallied { (Tallied pts.now keys.now lab.now s z.edges there.now)
        × (Tallied pts.now keys.now lab.now (opposite s) z.edges back.now) }
    ensures { result ≡ offered_both pts.now keys.now lab.now z macros.now
        seats.now s k c }
{
    if labels::leads(pts, keys, lab, s, k) {
        let l = lab[straight::first_end(keys, k)];
        let b = offer(pts, keys, z, macros, seats, lab, there, s, l, c);
        offer(
            pts,
            keys,
            z,
            macros,
            seats,
            lab,
            back,
            moves::opposite(s),
            l,
            b,
        )
    } else {
        c
    }
}

// Every edge in turn, along rows and along columns. What hangs from each bar stands in a table for each side.
fn search_by(
    pts: &[i32; NUMBERS],
    keys: &[usize; POINTS],
    z: Size,
    macros: &[i32],
    seats: &[usize; PINS],
    rows: &[usize; POINTS],
    columns: &[usize; POINTS],
    above: &[u64; POINTS],
    below: &[u64; POINTS],
    right: &[u64; POINTS],
    left: &[u64; POINTS],
) -> Best
    requires points_le_straight_bound { ((z.points ≤ straight_bound) × (z.edges ≤ straight_bound)) × (Small keys.now) }
    requires pins_le_pin_bound { (z.pins ≤ pin_bound) × (Seated z.pins seats.now) }
    requires numbers { (Numbers rows.now) × (Numbers columns.now) }
    requires tallied { (Tallied pts.now keys.now rows.now Above z.edges above.now)
        × (Tallied pts.now keys.now rows.now Below z.edges below.now) }
    requires tallied_2 { (Tallied pts.now keys.now columns.now Right z.edges right.now)
        × (Tallied pts.now keys.now columns.now Left z.edges left.now) }
    ensures { result ≡ searched pts.now keys.now rows.now columns.now z macros.now
        seats.now }
{
    let mut c = Best::NONE;
    for k in 0..z.edges {
        c = offer_both(
            pts,
            keys,
            z,
            macros,
            seats,
            rows,
            above,
            below,
            Side::Above,
            k,
            c,
        );
        c = offer_both(
            pts,
            keys,
            z,
            macros,
            seats,
            columns,
            right,
            left,
            Side::Right,
            k,
            c,
        );
    }
    c
}

// The same, with the tables of what hangs made first.
pub fn search(
    pts: &[i32; NUMBERS],
    keys: &[usize; POINTS],
    z: Size,
    macros: &[i32],
    seats: &[usize; PINS],
    rows: &[usize; POINTS],
    columns: &[usize; POINTS],
) -> Best
    requires points_le_straight_bound { ((z.points ≤ straight_bound) × (z.edges ≤ straight_bound)) × (Small keys.now) }
    requires pins_le_pin_bound { (z.pins ≤ pin_bound) × (Seated z.pins seats.now) }
    requires numbers { (Numbers rows.now) × (Numbers columns.now) }
    ensures { result ≡ searched pts.now keys.now rows.now columns.now z macros.now
        seats.now }
{
    let mut above = [0; POINTS];
    hanging::tally(pts, keys, z.edges, rows, Side::Above, &mut above);
    let mut below = [0; POINTS];
    hanging::tally(pts, keys, z.edges, rows, Side::Below, &mut below);
    let mut right = [0; POINTS];
    hanging::tally(pts, keys, z.edges, columns, Side::Right, &mut right);
    let mut left = [0; POINTS];
    hanging::tally(pts, keys, z.edges, columns, Side::Left, &mut left);
    search_by(
        pts, keys, z, macros, seats, rows, columns, &above, &below, &right, &left,
    )
}
