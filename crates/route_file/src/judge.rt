//! A line, given what is kept from those before it.

ghost use Rattle.std.specs.Prelude.{◌≡◌};
ghost use Rattle.route_file.specs.Judge.{net_entry, block_entry, node_entry, section_entry};
ghost use Rattle.route_file.specs.NetLine.{is_net_words};
ghost use Rattle.route_file.specs.kept.LinesSeen.{had_net, is_off, entry_after};

use crate::entry::FileEntry;
use crate::fault::RouteFileFault;
use crate::net_line::{heading_on, is_global_at, is_routed_at, net_on};
use crate::node_line::{node_reported, text_of};
use crate::seen::Seen;
use net_file::Netlist;
use rr_graph::Device;
use vpr_text::Words;

/// The line of a net.
#[tactic(auto, unfolding(crate::specs::Judge::net_entry, crate::specs::NetLine::net_on))]
fn net_entry(
    seen: &Seen,
    netlist: &Netlist,
    line: u32,
    words: &Words,
) -> Result<FileEntry, RouteFileFault>
    ensures { result ≡ net_entry netlist.now (had_net seen.now) line words.now }
{
    let heading = heading_on(words);
    if !heading.is_plain && !heading.is_global {
        return Err(RouteFileFault::BadLine(line));
    }
    let Some(net) = net_on(netlist, &heading) else {
        return Err(RouteFileFault::UnknownNet(line));
    };
    if seen.had(net) {
        return Err(RouteFileFault::NetTwice(line));
    }
    Ok(FileEntry::NetLine(net))
}

/// A line after that of a global net.
fn block_entry(line: u32, words: &Words) -> Result<FileEntry, RouteFileFault>
    ensures { result ≡ block_entry line words.now }
{
    if words.is(0, "Block") {
        Ok(FileEntry::BlockLine)
    } else {
        Err(RouteFileFault::BadLine(line))
    }
}

/// A line after that of routed net `net`.
#[tactic(auto, unfolding(crate::specs::Judge::node_entry))]
fn node_entry(
    seen: &Seen,
    device: &Device,
    net: u32,
    line: u32,
    words: &Words,
) -> Result<FileEntry, RouteFileFault>
    ensures { result ≡ node_entry device.now (is_off device.now seen.now net) line words.now }
{
    let Some(text) = text_of(words) else {
        return Err(RouteFileFault::BadLine(line));
    };
    let Some(node) = node_reported(device, text) else {
        return Err(RouteFileFault::NoNode(line));
    };
    if seen.is_off(device, net, node) {
        return Err(RouteFileFault::Detached(line));
    }
    Ok(FileEntry::NodeLine(node))
}

/// A line of a net's section.
fn section_entry(
    seen: &Seen,
    netlist: &Netlist,
    device: &Device,
    line: u32,
    words: &Words,
) -> Result<FileEntry, RouteFileFault>
    ensures { result ≡ section_entry netlist.now device.now (is_off device.now seen.now) line
        words.now seen.now.net }
{
    let Some(net) = seen.net else {
        return Err(RouteFileFault::BadLine(line));
    };
    if is_global_at(netlist, net as usize) {
        return block_entry(line, words);
    }
    if !is_routed_at(netlist, net as usize) {
        return Err(RouteFileFault::BadLine(line));
    }
    node_entry(seen, device, net, line, words)
}

/// A line with this number and these words.
#[tactic(auto, unfolding(crate::specs::kept::LinesSeen::entry_after))]
pub(crate) fn judge(
    seen: &Seen,
    netlist: &Netlist,
    device: &Device,
    line: u32,
    words: &Words,
) -> Result<FileEntry, RouteFileFault>
    ensures { result ≡ entry_after netlist.now device.now seen.now line words.now }
{
    if words.is(0, "Net") {
        return net_entry(seen, netlist, line, words);
    }
    section_entry(seen, netlist, device, line, words)
}
