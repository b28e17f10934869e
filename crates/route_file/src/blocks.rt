//! The lines of a global net.

ghost use Rattle.std.specs.Prelude.{◌≡◌, ◌++◌, [], ◌∷◌, ℕ, map, slice_index_or};
ghost use Rattle.std.specs.List.{flat_map};
ghost use Rattle.text_output.specs.Printing.{PrintsTo};
ghost use Rattle.net_file.specs.Connections.{no_block};
ghost use Rattle.route_file.specs.TextLine.{Block, GlobalNet, line_text};
ghost use Rattle.route_file.specs.Text.{no_site, block_line, global_net_lines};

use crate::text::{put_blank, put_class, put_heading};
use net_file::{Net, Netlist, Terminal};
use place_file::{Placement, Site};
use text_output::{ByteSink, Printer};

/// The name of a block; none past the last one.
fn block_name<'a>(netlist: &Netlist<'a>, number: usize) -> &'a [u8]
    ensures { result.now ≡ (slice_index_or netlist.now.blocks number no_block).name }
{
    match netlist.blocks().get(number) {
        Some(block) => block.name(),
        None => &[],
    }
}

/// The site of a block; past the last one that at (0,0).
fn site_of(placement: &Placement, number: usize) -> Site
    ensures { result ≡ slice_index_or placement.now.sites number no_site }
{
    placement.site(number).unwrap_or(Site {
        x: 0,
        y: 0,
        subblk: 0,
    })
}

/// Prints the line of a pin on a global net.
fn put_block<W: ByteSink>(out: &mut Printer<'_, W>, name: &[u8], site: Site, terminal: Terminal)
    ensures { PrintsTo W.ByteSink out.old out.new
        (line_text (Block name.now terminal.block site.x site.y terminal.class)) }
{
    out.push(b"Block ");
    out.push(name);
    out.push(b" (#");
    out.put_number(terminal.block);
    out.push(b") at ");
    out.put_place(site.x, site.y);
    out.push(b", pinclass ");
    put_class(out, terminal.class);
    out.push(b".");
    out.push(b"\n");
}

/// Prints the line of a terminal of a global net.
fn put_terminal<W: ByteSink>(
    out: &mut Printer<'_, W>,
    netlist: &Netlist<'_>,
    placement: &Placement,
    terminal: Terminal,
)
    ensures { PrintsTo W.ByteSink out.old out.new
        (line_text (block_line netlist.now placement.now terminal)) }
{
    let name = block_name(netlist, terminal.block);
    let site = site_of(placement, terminal.block);
    put_block(out, name, site, terminal);
}

/// Prints the lines of terminals of a global net, or until the sink breaks.
fn put_terminals<W: ByteSink>(
    out: &mut Printer<'_, W>,
    netlist: &Netlist<'_>,
    placement: &Placement,
    terminals: &[Terminal],
)
    ensures { PrintsTo W.ByteSink out.old out.new
        (flat_map line_text (map (block_line netlist.now placement.now) terminals.now)) }
{
    for terminal in terminals {
        put_terminal(out, netlist, placement, *terminal);
        if out.is_broken() {
            return;
        }
    }
}

/// Prints the line that begins a global net.
#[tactic(auto, unfolding(crate::specs::TextLine::bytes_on))]
fn put_global_heading<W: ByteSink>(out: &mut Printer<'_, W>, number: usize, name: &[u8])
    ensures { PrintsTo W.ByteSink out.old out.new
        (line_text (GlobalNet number name.now)) }
{
    put_heading(out, number, name, b"): global net connecting:");
}

/// Prints the lines of a global net: what drives it, and what takes its signal.
pub(crate) fn put_global_net<W: ByteSink>(
    out: &mut Printer<'_, W>,
    netlist: &Netlist<'_>,
    placement: &Placement,
    number: usize,
    net: &Net<'_>,
)
    ensures { PrintsTo W.ByteSink out.old out.new
        (flat_map line_text (global_net_lines netlist.now placement.now number net.now)) }
{
    put_blank(out);
    put_global_heading(out, number, net.name());
    put_blank(out);
    put_terminal(out, netlist, placement, net.driver());
    put_terminals(out, netlist, placement, net.sinks());
}
