//! The numbers and the names of a design's nets, as texts have them.

ghost use Rattle.std.specs.Prelude.{◌≡◌, slice_index_or};
ghost use Rattle.net_file.specs.Routed.{no_net};
ghost use Rattle.rr_graph.specs.Problems.{net_in};

use net_file::Netlist;
use rr_graph::Problem;

/// Returns the number that a net of the problem has in its netlist, or 0 past the last one.
pub fn number_of_net(problem: &Problem, net: u32) -> u32
    ensures { result ≡ (net_in problem.now.nets net).number }
{
    if net < problem.nets() {
        problem.number(net)
    } else {
        0
    }
}

/// Returns the name of the net with this number, or an empty name past the last one.
pub fn net_name<'a>(netlist: &Netlist<'a>, number: u32) -> &'a [u8]
    ensures { result.now ≡ (slice_index_or netlist.now.nets number no_net).name }
{
    match netlist.nets().get(number as usize) {
        Some(net) => net.name(),
        None => &[],
    }
}
