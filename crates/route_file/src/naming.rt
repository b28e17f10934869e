//! Which lines of a routing name nodes, and which begin the sections of nets.

ghost use Rattle.std.specs.Prelude.{◌≡◌};
ghost use Rattle.vpr_text.specs.Words.{words_at};
ghost use Rattle.route_file.specs.NetLine.{is_net_words};
ghost use Rattle.route_file.specs.NodeLine.{node_on};
ghost use Rattle.route_file.specs.Sections.{net_begun};

use crate::net_line::{heading_on, net_on};
use crate::node_line::{node_reported, text_of};
use net_file::Netlist;
use rr_graph::Device;
use vpr_text::{Lines, Words};

/// The number of the node that a line names, if it is a node's line and the device has the node.
/// None past the last line.
#[tactic(auto, unfolding(crate::specs::NodeLine::node_on))]
pub fn node_named(lines: &Lines, device: &Device, line: usize) -> Option<u32>
    ensures { result ≡ node_on device.now (words_at lines.now line) }
{
    match text_of(&Words::new(lines, line)) {
        Some(text) => node_reported(device, text),
        None => None,
    }
}

/// Whether a line begins the section of a net, known or not. No past the last line.
pub fn begins_section(lines: &Lines, line: usize) -> bool
    ensures { result ≡ is_net_words (words_at lines.now line) }
{
    Words::new(lines, line).is(0, "Net")
}

/// The number in the netlist of the net whose section a line begins, if it begins one and the
/// netlist has the net.
#[tactic(auto, unfolding(crate::specs::NetLine::net_on))]
pub fn net_begun(lines: &Lines, netlist: &Netlist, line: usize) -> Option<u32>
    ensures { result ≡ net_begun netlist.now (words_at lines.now line) }
{
    let words = Words::new(lines, line);
    if words.is(0, "Net") {
        net_on(netlist, &heading_on(&words))
    } else {
        None
    }
}
