// The round's choice among the bars of a straight tree, on tables: which bar saves most, to which side and how far it moves.
//
// A bar is told by the label of its points, one table of labels for each direction.
#![tactic(auto)]

pub mod search; // search.rt: the best move

ghost use Rattle.std.specs.Prelude.{◌≡◌, ◌≤◌, replicate};
ghost use Rattle.net.specs.Bounds.{pin_bound};
ghost use Rattle.net.specs.Pins.{pin_count};
ghost use Rattle.tree.specs.Table.{tree};
ghost use Rattle.slide.specs.declared.Side.TheVariants.{Above, Right};
ghost use Rattle.straight.specs.Table.{Held};
ghost use Rattle.labels.specs.Labelling.{labelled};
ghost use Rattle.moves.specs.Moving.{seats_of};
ghost use Rattle.bars.specs.Offers.{Fresh, searched};

use moves::PINS;
use plane::Place;
use reach::Size;
use slide::{Move, Side};
use straight::{NUMBERS, POINTS};

// The best move so far, and the label of its bar. With saving 0 there is none.
#[derive(Clone, Copy)]
pub struct Best {
    pub label: usize,
    pub best: Move,
}

impl Best {
    // Before any bar is offered.
    pub const NONE: Best = Best {
        label: 0,
        best: Move {
            saving: 0,
            first: Place { x: 0, y: 0 },
            side: Side::Above,
            distance: 0,
        },
    };
}

// The best move of all bars of a tree, with the labels of its points along rows and along columns.
pub fn choice(
    pts: &[i32; NUMBERS],
    keys: &[usize; POINTS],
    z: Size,
    pins: &[i32],
    macros: &[i32],
    rows: &mut [usize; POINTS],
    columns: &mut [usize; POINTS],
) -> Best
    requires held { (Held (tree pts.now z.points keys.now z.edges)) × ((z.pins ≤ pin_bound) × (z.pins ≤ pin_count pins.now)) }
    requires fresh { (Fresh rows.old) × (Fresh columns.old) }
    ensures rows_after { (rows.new ≡ labelled Above pts.now keys.now z.points z.edges rows.old)
        × (columns.new ≡ labelled Right pts.now keys.now z.points z.edges columns.old) }
    ensures value { result ≡ searched pts.now keys.now
        (labelled Above pts.now keys.now z.points z.edges rows.old)
        (labelled Right pts.now keys.now z.points z.edges columns.old) z macros.now
        (seats_of pts.now z.points pins.now z.pins (replicate pin_bound 0)) }
{
    labels::label(pts, keys, z.points, z.edges, Side::Above, rows);
    labels::label(pts, keys, z.points, z.edges, Side::Right, columns);
    let mut seats = [0; PINS];
    moves::seat(pts, z.points, pins, z.pins, &mut seats);
    search::search(pts, keys, z, macros, &seats, rows, columns)
}
