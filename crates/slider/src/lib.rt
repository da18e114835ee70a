// The slid tree: bends, then rounds, each of which makes the best move of all bars and tables afresh.
#![tactic(auto)]

mod round; // round.rt: a round, and rounds until one saves nothing

ghost use Rattle.std.specs.Prelude.{◌≡◌, ◌*◌, length};
ghost use Rattle.net.specs.Net.{net_with};
ghost use Rattle.laid.specs.Edges.{laid_bound};
ghost use Rattle.slide.specs.Slide.{slid};
ghost use Rattle.slide.specs.Promise.{Slidable};
ghost use Rattle.settled.specs.Settled.{edges_of};

use plane::Weights;
use straight::EDGE_NUMBERS;

// The slid tree of the first e edges: slanted edges bent, then rounds. How many edges it has.
pub fn slide(w: Weights, pins: &[i32], macros: &[i32], edges: &mut [i32], e: usize) -> usize
    requires slidable { Slidable (net_with w pins.now macros.now) (edges_of edges.old e) }
    requires edges_len { length edges.old ≡ laid_bound * 4 }
    ensures { edges_of edges.new result
        ≡ slid (net_with w pins.now macros.now) (edges_of edges.old e) }
{
    let mut list = [0i32; EDGE_NUMBERS];
    let Some(bent) = bends::bend_tree(pins, edges, e, &mut list) else {
        return e;
    };
    let mut row = [0i32; EDGE_NUMBERS];
    let start = settled::sort_edges(&list, bent.edges, &mut row);
    let count = round::rounds(w, pins, macros, &mut row, start, bent.points);
    laid::give(&row, count, edges);
    count
}
