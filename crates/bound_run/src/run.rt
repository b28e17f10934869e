//! The `bound` command over any sources and sinks.

ghost use Rattle.std.specs.Prelude.{◌≡◌, ◌≢◌, true, false, Err};
ghost use Rattle.run_inputs.specs.Inputs.{ends_before, placed_in};
ghost use Rattle.run_inputs.specs.Runs.{MeetsDesign, PrintsText, TakesNothing, reading, writing_to};
ghost use Rattle.bound_run.specs.Bounds.{bound_lines, figures_of};
ghost use Rattle.bound_run.specs.BoundRun.{RunsBound, PrintsBound, WritesBound};
ghost use Rattle.bound_run.specs.CutTexts.{cut_text};

use crate::bound::find_bound;
use crate::certificate::put_cut;
use crate::lines::put_bound;
use run_inputs::{AppFault, InputFile, NetlistText, PlacedNetlist};
use std::alloc::Global;
use text_output::{ByteSink, Printer};
use vpr_text::ByteSource;
use width_bound::{Cut, CutFigures};

/// Prints the lines on a cut.
fn print_bound<W: ByteSink>(figures: CutFigures, out: &mut W) -> Result<(), AppFault>
    ensures { PrintsText (writing_to W.taken W.failed out.old out.new)
        (bound_lines figures) tt result }
{
    let mut printer = Printer::new(out);
    put_bound(&mut printer, figures);
    match printer.finish() {
        Ok(()) => Ok(()),
        Err(_) => Err(AppFault::Unwritten),
    }
}

/// Prints the text of a cut of a placed netlist.
fn print_cut<C: ByteSink>(
    placed: &PlacedNetlist<'_>,
    found: &Cut,
    figures: CutFigures,
    cut: &mut C,
) -> Result<(), AppFault>
    requires { figures ≡ figures_of placed.now found.now }
    ensures { PrintsText (writing_to C.taken C.failed cut.old cut.new)
        (cut_text placed.now found.now) tt result }
{
    let mut printer = Printer::new(cut);
    put_cut(&mut printer, placed, found, figures);
    match printer.finish() {
        Ok(()) => Ok(()),
        Err(_) => Err(AppFault::Unwritten),
    }
}

/// Prints the lines on a cut of a placed netlist, and then its text.
fn print_both<C: ByteSink, W: ByteSink>(
    placed: &PlacedNetlist<'_>,
    found: &Cut,
    figures: CutFigures,
    cut: &mut C,
    out: &mut W,
) -> Result<(), AppFault>
    requires { figures ≡ figures_of placed.now found.now }
    ensures { WritesBound (writing_to C.taken C.failed cut.old cut.new)
        (writing_to W.taken W.failed out.old out.new) (bound_lines figures)
        (cut_text placed.now found.now) result }
{
    print_bound(figures, out)?;
    print_cut(placed, found, figures, cut)
}

/// Finds a cut of a placed netlist, and prints what it shows.
fn bound_placed<C: ByteSink, W: ByteSink>(
    alloc: Global,
    placed: &PlacedNetlist<'_>,
    cut: &mut C,
    out: &mut W,
) -> Result<(), AppFault>
    ensures prints { result ≢ Err AppFault.Memory
        → PrintsBound (writing_to C.taken C.failed cut.old cut.new)
        (writing_to W.taken W.failed out.old out.new) placed.now result }
    ensures cut { result ≡ Err AppFault.Memory
        → TakesNothing (writing_to C.taken C.failed cut.old cut.new) }
    ensures out { result ≡ Err AppFault.Memory
        → TakesNothing (writing_to W.taken W.failed out.old out.new) }
    ensures late { ends_before InputFile.Route result ≡ false }
{
    let found = match find_bound(alloc, placed) {
        Ok(found) => found,
        Err(_) => return Err(AppFault::Memory),
    };
    print_both(placed, &found.cut, found.figures, cut, out)
}

/// Reads an architecture, a netlist and its placement in this order, each only if those before it
/// have no fault. Finds a cut of the array. Prints the width below which the cut leaves no routing,
/// and how many nets it cuts by how many places and pins. Then writes the text of the cut to `cut`.
/// The caller moves what was written there to its place.
///
/// # Errors
/// Each fault exactly when it comes first; only `Memory` is unspecified. The faults of the files
/// come in reading order, and then neither sink took anything. After them comes `Unwritten`, if
/// writing failed: to `out`, which then took a front of the lines while `cut` took nothing; or to
/// `cut`, which took a front of the cut's text.
pub fn bound_run<N: ByteSource, A: ByteSource, P: ByteSource, C: ByteSink, W: ByteSink>(
    alloc: Global,
    net: &mut N,
    arch: &mut A,
    place: &mut P,
    cut: &mut C,
    out: &mut W,
) -> Result<(), AppFault>
    // The files decide. If they give a placed netlist, the lines of some cut of it are printed, and
    // it has no routing at a width that these rule out.
    ensures runs { result ≢ Err AppFault.Memory
        → MeetsDesign (reading (A.remaining arch.old) (A.failed arch.new))
        (reading (N.remaining net.old) (N.failed net.new))
        (reading (P.remaining place.old) (P.failed place.new))
        (λ files. RunsBound (writing_to C.taken C.failed cut.old cut.new)
        (writing_to W.taken W.failed out.old out.new) (placed_in files) result) }
    // Nothing is written if memory runs out.
    ensures cut { result ≡ Err AppFault.Memory
        → TakesNothing (writing_to C.taken C.failed cut.old cut.new) }
    ensures out { result ≡ Err AppFault.Memory
        → TakesNothing (writing_to W.taken W.failed out.old out.new) }
    // A file is not read if the run ended at one before it.
    ensures net { ends_before InputFile.Net result ≡ true → net.new ≡ net.old }
    ensures place { ends_before InputFile.Place result ≡ true → place.new ≡ place.old }
{
    let text = NetlistText::read(alloc, arch, net)?;
    let placed = PlacedNetlist::read(alloc, &text, place)?;
    bound_placed(alloc, &placed, cut, out)
}
