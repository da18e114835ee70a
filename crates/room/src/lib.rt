// What an operation must be lent: each function says whether it is too little, by the numbers of pins and of points that the check has
// counted. Each is small and by itself, so that a wrong number is found without the operations being checked again.
#![tactic(auto)]

ghost use Rattle.std.specs.Prelude.{◌≡◌, ◌||◌, ◌≤◌, ltb};
ghost use Rattle.net.specs.Bounds.{pin_bound, macro_bound};
ghost use Rattle.net.specs.Counts.{point_count};
ghost use Rattle.room.specs.Needs.{vertex_need, link_need, path_need, edge_need, wire_need};

use net::Net;

// The graph: 2n numbers for vertices, and 16n for edges.
pub fn graph_short(net: Net, vertices: usize, edges: usize) -> bool
    requires pins_le_pin_bound { net.pins ≤ pin_bound }
    requires macros_le_macro_bound { net.macros ≤ macro_bound }
    ensures { result ≡ (ltb vertices (vertex_need (point_count net)) || ltb edges (link_need (point_count net))) }
{
    let n = net::point_count(net);
    (vertices < n * 2) | (edges < n * 16)
}

// The terminal tree: 5m numbers for paths.
pub fn paths_short(net: Net, paths: usize) -> bool
    requires { net.pins ≤ pin_bound }
    ensures { result ≡ ltb paths (path_need net.pins) }
{
    paths < net.pins * 5
}

// The refined tree: 4(n + m) numbers for edges.
pub fn edges_short(net: Net, edges: usize) -> bool
    requires pins_le_pin_bound { net.pins ≤ pin_bound }
    requires macros_le_macro_bound { net.macros ≤ macro_bound }
    ensures { result ≡ ltb edges (edge_need (point_count net) net.pins) }
{
    edges < (net::point_count(net) + net.pins) * 4
}

// Its wires, and the slid tree: 8(n + m) numbers.
pub fn wires_short(net: Net, wires: usize) -> bool
    requires pins_le_pin_bound { net.pins ≤ pin_bound }
    requires macros_le_macro_bound { net.macros ≤ macro_bound }
    ensures { result ≡ ltb wires (wire_need (point_count net) net.pins) }
{
    wires < (net::point_count(net) + net.pins) * 8
}
