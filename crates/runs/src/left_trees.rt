//! What a negotiation without success left: its trees, and the nets that have none.

ghost use Rattle.std.specs.Prelude.{◌≡◌, true, false, Err};
ghost use Rattle.text_output.specs.Printing.{PrintsTo};
ghost use Rattle.route_file.specs.Text.{text_of};
ghost use Rattle.run_inputs.specs.Faults.{ends_free};
ghost use Rattle.run_inputs.specs.Runs.{PrintsText, TakesNothing, writing_to};
ghost use Rattle.runs.specs.WidthRun.{TakesText};
ghost use Rattle.runs.specs.kept.Left.{stuck_line, stuck_net, stuck_text};

use crate::routing::write_trees;
use crate::side_files::SideFiles;
use crate::whole_sink::WholeSink;
use congestion_book::Book;
use iteration::routing_of;
use net_file::Netlist;
use net_workers::{Gate, ScheduledTurn};
use rr_graph::{Device, Problem};
use run_inputs::{AppFault, Design, net_name, number_of_net};
use std::alloc::Global;
use std::sync::{Mutex, Wait};
use text_output::{ByteSink, Piece, Printer};

/// Writes the text of the trees that a book of the design's problem has recorded.
#[tactic(auto, using(crate::proofs::Leaving::book_fits))]
fn write_recorded<W: WholeSink>(
    alloc: Global,
    design: &Design<'_>,
    book: &Book,
    file: &mut W,
) -> Result<(), AppFault>
    requires { book.now.problem ≡ design.now.problem }
    ensures writes { ends_free result ≡ false
        → PrintsText (writing_to W.taken W.failed file.old file.new)
        (text_of design.now.netlist design.now.placement design.now.problem book.now.lists)
        tt result }
    ensures nothing { ends_free result ≡ true
        → TakesNothing (writing_to W.taken W.failed file.old file.new) }
    ensures memory { ends_free result ≡ true → result ≡ Err AppFault.Memory }
{
    let trees = routing_of(alloc, book)?;
    write_trees(
        design.netlist(),
        design.placement(),
        design.problem(),
        &trees,
        file,
    )
}

/// Writes the text of the trees that a book has recorded to the file of the design's width. Returns
/// `Astray` if the book isn't of the design's problem.
fn write_left<W: WholeSink>(
    alloc: Global,
    design: &Design<'_>,
    book: &Book,
    file: &mut W,
) -> Result<(), AppFault>
    requires { W.is_at file.old design.now.problem.device.width }
    ensures writes { ends_free result ≡ false
        → PrintsText (writing_to W.taken W.failed file.old file.new)
        (text_of design.now.netlist design.now.placement design.now.problem book.now.lists)
        tt result }
    ensures nothing { ends_free result ≡ true
        → TakesNothing (writing_to W.taken W.failed file.old file.new) }
    // The trees of a book of the problem are written, unless memory runs out.
    ensures memory { book.now.problem ≡ design.now.problem → ends_free result ≡ true
        → result ≡ Err AppFault.Memory }
{
    let is_own = *book.problem() == *design.problem();
    if !is_own {
        return Err(AppFault::Astray);
    }
    write_recorded(alloc, design, book, file)
}

/// Prints that no path leads to a sink of the net of this name.
#[tactic(auto, unfolding(crate::specs::kept::Left::stuck_line))]
fn put_stuck_line<'a, W: ByteSink>(
    out: &mut Printer<'_, W>,
    device: &'a Device,
    name: &'a [u8],
    sink: u32,
)
    ensures { PrintsTo W.ByteSink out.old out.new
        (stuck_line device.now name.now sink) }
{
    out.put_pieces(&[
        Piece::Text(b"net "),
        Piece::Text(name),
        Piece::Text(b": stuck at "),
        Piece::Node(device, sink),
        Piece::Text(b"\n"),
    ]);
}

/// Prints that no path leads to a sink of a net of the problem. `stuck` is the net and the sink.
fn put_stuck<W: ByteSink>(
    out: &mut Printer<'_, W>,
    netlist: &Netlist<'_>,
    problem: &Problem,
    stuck: (u32, u32),
)
    ensures { PrintsTo W.ByteSink out.old out.new
        (stuck_net netlist.now problem.now stuck) }
{
    let name = net_name(netlist, number_of_net(problem, stuck.0));
    put_stuck_line(out, problem.device(), name, stuck.1);
}

/// Prints which nets have no tree, each with a sink that no path leads to.
fn put_all_stuck<W: ByteSink>(
    out: &mut Printer<'_, W>,
    netlist: &Netlist<'_>,
    problem: &Problem,
    stuck: &[(u32, u32)],
)
    ensures { PrintsTo W.ByteSink out.old out.new
        (stuck_text netlist.now problem.now stuck.now) }
{
    for entry in stuck {
        put_stuck(out, netlist, problem, *entry);
    }
}

/// Writes which nets of a design have no tree.
#[inline(never)]
fn tell_stuck<W: ByteSink>(words: &mut W, design: &Design<'_>, stuck: &[(u32, u32)])
    ensures { TakesText (writing_to W.taken W.failed words.old words.new)
        (stuck_text design.now.netlist design.now.problem stuck.now) }
{
    let mut printer = Printer::new(words);
    put_all_stuck(&mut printer, design.netlist(), design.problem(), stuck);
    let _ = printer.finish();
}

/// A gate of a negotiation. If no routing was found and the file is wanted, it writes the trees
/// that the last iteration left, and reports for each net without a tree a sink that no path leads
/// to.
#[derive(Drop)]
pub(crate) struct LeftTrees<'a, 'b, T, S> {
    rt: &'a T,
    alloc: Global,
    design: &'a Design<'b>,
    files: &'a S,
    /// The nets for which a search found no path, each with the sink.
    stuck: Mutex<Vec<(u32, u32)>>,
}

impl<'a, 'b, T: Wait, S: SideFiles> LeftTrees<'a, 'b, T, S> {
    pub(crate) fn new(
        rt: &'a T,
        alloc: Global,
        design: &'a Design<'b>,
        files: &'a S,
    ) -> LeftTrees<'a, 'b, T, S> {
        LeftTrees {
            rt,
            alloc,
            design,
            files,
            stuck: Mutex::new(Vec::new(alloc)),
        }
    }
}

impl<T: Wait, S: SideFiles> Gate for LeftTrees<'_, '_, T, S> {
    ghost accepted = { λ gate k turns. Unit {0} };

    fn between(&self, _worker: u32, _net: u32) {}

    fn stuck(&self, net: u32, sink: u32) {
        let _ = self.stuck.lock(self.rt).push((net, sink));
    }

    fn searched(&self, _worker: u32, _net: u32) {}

    fn accepts(&self, _iteration: u32, _turns: &[ScheduledTurn]) -> bool {
        true
    }

    fn left(&self, book: &Book) {
        let width = self.design.problem().device().width();
        let Some(mut file) = self.files.file(width) else {
            return;
        };
        if write_left(self.alloc, self.design, book, &mut file).is_err() {
            self.files.unwritten(width);
        }
        let mut stuck = self.stuck.lock(self.rt);
        stuck.sort_unstable();
        tell_stuck(&mut self.files.words(), self.design, stuck.as_slice());
    }
}
