// The text that the program `route` prints for a file: read, routed, and its trees or its refusal put into a lent buffer.
#![tactic(auto)]

ghost use Rattle.std.specs.Prelude.{◌≡◌};
ghost use Rattle.lent.specs.Told.{given};
ghost use Rattle.net.specs.Net.{handed};
ghost use Rattle.checks.specs.Check.{checked};
ghost use Rattle.text.specs.Put.{Filled};
ghost use Rattle.report.specs.Route.{trees_text, route_text};

use net::{Net, Weighing};
use text::Header;

const EDGE_NUMBERS: usize = Net::TREE_POINTS * 4;

// Bytes to read of a file: one more than the longest has, so that a longer one is refused as such. No text depends on what follows
// (proofs/CutLaws.antt).
pub const FILE: usize = blocks::LONGEST + 1;

// Bytes for the longest text: a header, and a line for each edge.
pub const TEXT: usize = 140 + Net::TREE_POINTS * 105;

// The text of an allowed net; how many bytes it has. With room for the largest tree no allowed net is refused here.
fn trees_text(net: Net, pins: &[i32], macros: &[i32], out: &mut [u8; TEXT]) -> usize
    requires { checked (handed net.weights) pins.now macros.now ≡ given net }
    ensures { Filled (trees_text net pins.now macros.now) out.old out.new result }
{
    let mut edges = [0i32; EDGE_NUMBERS];
    match router::both_trees(Weighing::from(net.weights), pins, macros, &mut edges) {
        Ok(both) => {
            let header = Header {
                pins: net.pins,
                macros: net.macros,
                terminal: both.terminal,
                refined: both.tree.total,
                metal: both.tree.metal,
            };
            text::tree(net.weights, header, &edges, both.tree.edges, out)
        }
        Err(refusal) => text::refused(refusal.number(), out),
    }
}

// The text that `route` prints for a file; how many bytes it has.
pub fn route(file: &[u8], out: &mut [u8; TEXT]) -> usize
    ensures { Filled (route_text file.now) out.old out.new result }
{
    let mut pins = [0i32; netfile::PIN_LIST];
    let mut macros = [0i32; netfile::MACRO_LIST];
    match router::read_file(file, &mut pins, &mut macros) {
        Ok(net) => {
            let m = net.pins * Net::PIN_NUMBERS;
            let k = net.macros * Net::MACRO_NUMBERS;
            trees_text(net, &pins[..m], &macros[..k], out)
        }
        Err(refusal) => text::refused(refusal.number(), out),
    }
}
