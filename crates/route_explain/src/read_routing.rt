//! A routing that was read from a file.

use net_file::Netlist;
use route_tree::Routing;
use rr_graph::Problem;
use vpr_text::Lines;

/// A routing that was read from a file: the file's name and lines, and the problem, with the names
/// of its nets, that is routed.
#[derive(Clone, Copy)]
pub struct ReadRouting<'a, 'n, 'l> {
    pub path: &'a [u8],
    pub netlist: &'a Netlist<'n>,
    pub problem: &'a Problem,
    pub lines: &'a Lines<'l>,
    pub routing: &'a Routing,
}
