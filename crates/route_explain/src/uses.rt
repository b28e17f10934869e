//! The lines of an explanation on the lines of the file that name overused nodes.

ghost use Rattle.std.specs.Prelude.{◌≡◌, IfSome, if◌then◌else◌, true};
ghost use Rattle.text_output.specs.Printing.{PrintsTo};
ghost use Rattle.vpr_text.specs.Words.{number_at, words_at};
ghost use Rattle.route_file.specs.NetLine.{is_net_words, net_on};
ghost use Rattle.route_report.specs.Covered.{uses_of};
ghost use Rattle.route_report.specs.Overused.{is_over};
ghost use Rattle.report_run.specs.Named.{overused_on};
ghost use Rattle.route_explain.specs.Uses.{use_line, use_lines, use_text, use_word, user_text};
ghost use Rattle.route_explain.specs.kept.Findings.{AreFindings};

use crate::findings::Findings;
use crate::read_routing::ReadRouting;
use crate::text::{put_after, put_where};
use crate::users::is_user;
use net_file::Netlist;
use report_run::overused_on;
use route_file::{begins_section, net_begun};
use run_inputs::net_name;
use text_output::{ByteSink, Printer};
use vpr_text::{Lines, line_number};

/// Prints the name of a net, if there is one, after a blank.
fn put_user<W: ByteSink>(out: &mut Printer<'_, W>, netlist: &Netlist<'_>, net: Option<u32>)
    ensures { PrintsTo W.ByteSink out.old out.new
        (user_text netlist.now net) }
{
    if let Some(net) = net {
        out.push(b" ");
        out.push(net_name(netlist, net));
    }
}

/// Returns what a net does with a node that its section names: it uses the node if it covers it.
fn use_word(covers: bool) -> &'static [u8]
    ensures { result.now ≡ use_word covers }
{
    if covers {
        b" uses node "
    } else {
        b" names node "
    }
}

/// Prints that a line of the file names a node for a net, which may cover the node.
fn put_use<W: ByteSink>(
    out: &mut Printer<'_, W>,
    file: &ReadRouting<'_, '_, '_>,
    line: u32,
    net: Option<u32>,
    covers: bool,
    node: u32,
)
    ensures { PrintsTo W.ByteSink out.old out.new
        (use_line file.now.path.now file.now.netlist.now file.now.problem.now.device line net
        covers node) }
{
    put_where(out, file.path, line);
    out.push(b"net");
    put_user(out, file.netlist, net);
    out.push(use_word(covers));
    out.put_number(node);
    put_after(out, file.problem.device(), b" ", node);
    out.push(b"\n");
}

/// Prints that a line of the file names an overused node, if it does.
fn put_use_of<W: ByteSink>(
    out: &mut Printer<'_, W>,
    file: &ReadRouting<'_, '_, '_>,
    found: &Findings,
    line: u32,
    net: Option<u32>,
    node: Option<u32>,
)
    requires found { AreFindings file.now.netlist.now file.now.problem.now file.now.lines.now
        file.now.routing.now found.now }
    requires over { IfSome node (λ a. is_over file.now.problem.now.device
        (uses_of file.now.problem.now file.now.routing.now) a ≡ true) }
    ensures { PrintsTo W.ByteSink out.old out.new
        (use_text file.now.path.now file.now.netlist.now file.now.problem.now file.now.routing.now
        line net node) }
{
    if let Some(node) = node {
        let covers = is_user(file.problem, &found.nodes, &found.overused, net, node);
        put_use(out, file, line, net, covers, node);
    }
}

/// Prints that a line of the file names an overused node, if it does. The line is in the section of
/// this net.
fn put_use_at<W: ByteSink>(
    out: &mut Printer<'_, W>,
    file: &ReadRouting<'_, '_, '_>,
    found: &Findings,
    net: Option<u32>,
    index: usize,
)
    requires { AreFindings file.now.netlist.now file.now.problem.now file.now.lines.now
        file.now.routing.now found.now }
    ensures { PrintsTo W.ByteSink out.old out.new
        (use_text file.now.path.now file.now.netlist.now file.now.problem.now file.now.routing.now
        (number_at file.now.lines.now index) net
        (overused_on file.now.problem.now.device
        (uses_of file.now.problem.now file.now.routing.now) file.now.lines.now index)) }
{
    let line = line_number(file.lines, index);
    let node = overused_on(file.lines, file.problem.device(), &found.uses, index);
    put_use_of(out, file, found, line, net, node);
}

/// Returns the net whose section the next line is in.
fn net_behind(
    netlist: &Netlist<'_>,
    lines: &Lines<'_>,
    net: Option<u32>,
    index: usize,
) -> Option<u32>
    ensures { result ≡ (if is_net_words (words_at lines.now index)
        then net_on netlist.now (words_at lines.now index) else net) }
{
    if begins_section(lines, index) {
        net_begun(lines, netlist, index)
    } else {
        net
    }
}

/// Prints which lines of the file name overused nodes, and for which nets.
pub(crate) fn put_use_lines<W: ByteSink>(
    out: &mut Printer<'_, W>,
    file: &ReadRouting<'_, '_, '_>,
    found: &Findings,
)
    requires { AreFindings file.now.netlist.now file.now.problem.now file.now.lines.now
        file.now.routing.now found.now }
    ensures { PrintsTo W.ByteSink out.old out.new
        (use_lines file.now.path.now file.now.netlist.now file.now.problem.now file.now.routing.now
        file.now.lines.now) }
{
    let mut net = None;
    for index in 0..file.lines.len() {
        put_use_at(out, file, found, net, index);
        net = net_behind(file.netlist, file.lines, net, index);
    }
}
