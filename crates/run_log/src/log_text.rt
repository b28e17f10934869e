//! The text of a log: its head, and the line of an iteration.

ghost use Rattle.std.specs.Prelude.{◌≡◌, ◌≤◌, decimal, length, option_copied};
ghost use Rattle.text_output.specs.Printing.{PrintsTo};
ghost use Rattle.node_cost.specs.Options.{most_iterations};
ghost use Rattle.run_inputs.specs.Runs.{PrintsText, writing_to};
ghost use Rattle.run_log.specs.kept.LogTexts.{array_text, column_text, figures_text, files_text, filled_text, given_text, head_text, iteration_text, mode_name, part_text, point_text, problem_text, row_text, steady_text, time_text, titles_text};

use crate::run_files::RunFiles;
use congestion_book::Book;
use itoa::{Buffer, Integer};
use node_cost::Settings;
use rr_graph::{Mode, Problem};
use run_inputs::AppFault;
use run_schedule::{put_amount, put_entry, put_options};
use text_output::{ByteSink, Piece, Printer};

/// Prints the size of an array.
#[tactic(auto, unfolding(crate::specs::kept::LogTexts::array_text))]
fn put_array<W: ByteSink>(out: &mut Printer<'_, W>, nx: u32, ny: u32)
    ensures { PrintsTo W.ByteSink out.old out.new (array_text nx ny) }
{
    out.put_pieces(&[
        Piece::Text(b"# array "),
        Piece::Number(nx),
        Piece::Text(b" x "),
        Piece::Number(ny),
        Piece::Text(b" blocks\n"),
    ]);
}

/// Returns the name of a mode.
fn mode_name(mode: Mode) -> &'static [u8]
    ensures { result.now ≡ mode_name mode }
{
    match mode {
        Mode::Detailed => b"detailed",
        Mode::Global => b"global",
    }
}

/// Prints the line of a name that may have a value.
fn put_given<'a, W: ByteSink>(out: &mut Printer<'_, W>, name: &'a [u8], value: Option<&'a [u8]>)
    ensures { PrintsTo W.ByteSink out.old out.new
        (given_text name.now (option_copied value.entry)) }
{
    if let Some(value) = value {
        put_entry(out, name, value);
    }
}

/// Prints the files of a run, and its schedules.
fn put_files<W: ByteSink>(out: &mut Printer<'_, W>, files: &RunFiles<'_>)
    ensures { PrintsTo W.ByteSink out.old out.new (files_text files.now) }
{
    put_entry(out, b"net", files.net);
    put_entry(out, b"arch", files.arch);
    put_entry(out, b"place", files.place);
    put_entry(out, b"route", files.route);
    put_given(out, b"schedule", files.schedule);
    put_given(out, b"follow", files.follow);
}

/// Prints the array, the number of nets, the mode and the width of the first negotiation's problem.
fn put_problem<W: ByteSink>(out: &mut Printer<'_, W>, problem: &Problem)
    ensures { PrintsTo W.ByteSink out.old out.new
        (problem_text problem.now) }
{
    let device = problem.device();
    put_array(out, device.nx(), device.ny());
    put_amount(out, b"nets", problem.nets(), b"");
    put_entry(out, b"routing", mode_name(device.mode()));
    put_amount(out, b"width", device.width(), b" tracks");
}

/// Prints that nets keep to the trees that they have, if they do.
fn put_steady<W: ByteSink>(out: &mut Printer<'_, W>, is_steady: bool)
    ensures { PrintsTo W.ByteSink out.old out.new
        (steady_text is_steady) }
{
    if is_steady {
        put_entry(out, b"steady", b"yes");
    }
}

/// Prints the titles of the columns.
fn put_titles<W: ByteSink>(out: &mut Printer<'_, W>)
    ensures { PrintsTo W.ByteSink out.old out.new (titles_text) }
{
    out.push(b"width iteration    present overused   excess unrouted wirelength   seconds\n");
}

/// Prints the head of a log.
fn put_head<W: ByteSink>(
    out: &mut Printer<'_, W>,
    program: &[u8],
    files: &RunFiles<'_>,
    problem: &Problem,
    workers: u32,
    settings: &Settings,
)
    ensures { PrintsTo W.ByteSink out.old out.new
        (head_text program.now files.now problem.now workers settings.now) }
{
    put_entry(out, b"pathfinder", program);
    put_files(out, files);
    put_problem(out, problem);
    put_amount(out, b"workers", workers, b"");
    put_options(out, settings);
    put_steady(out, settings.is_steady());
    put_titles(out);
}

/// Writes the head of the log of a run with these files, at once.
#[inline(never)]
pub fn write_head<W: ByteSink>(
    sink: &mut W,
    program: &[u8],
    files: &RunFiles<'_>,
    problem: &Problem,
    workers: u32,
    settings: &Settings,
) -> Result<(), AppFault>
    ensures { PrintsText (writing_to W.taken W.failed sink.old sink.new)
        (head_text program.now files.now problem.now workers settings.now) tt result }
{
    let mut printer = Printer::new(sink);
    put_head(&mut printer, program, files, problem, workers, settings);
    match printer.finish() {
        Ok(()) => Ok(()),
        Err(_) => Err(AppFault::Unwritten),
    }
}

/// Prints a text in at least this many places. A shorter text is preceded by a front of the
/// filling.
fn put_filled<W: ByteSink>(out: &mut Printer<'_, W>, filling: &[u8], places: usize, text: &[u8])
    requires { places ≤ length filling.now }
    ensures { PrintsTo W.ByteSink out.old out.new
        (filled_text filling.now places text.now) }
{
    let missing = places.saturating_sub(text.len());
    out.push(&filling[..missing]);
    out.push(text);
}

/// Prints a number right-aligned in at least this many places.
fn put_column<W: ByteSink, I: Integer>(out: &mut Printer<'_, W>, places: usize, number: I)
    requires { places ≤ 10 }
    ensures { PrintsTo W.ByteSink out.old out.new
        (column_text places (I.text number)) }
{
    let mut digits = Buffer::new();
    put_filled(out, b"          ", places, digits.format(number).as_bytes());
}

/// Prints the digits after a decimal point, in this many places.
fn put_part<W: ByteSink>(out: &mut Printer<'_, W>, places: usize, part: u32)
    requires { places ≤ 4 }
    ensures { PrintsTo W.ByteSink out.old out.new
        (part_text places (decimal part)) }
{
    let mut digits = Buffer::new();
    put_filled(out, b"0000", places, digits.format(part).as_bytes());
}

/// Prints a number with this many places after the decimal point.
fn put_point<W: ByteSink, I: Integer>(out: &mut Printer<'_, W>, whole: I, places: usize, part: u32)
    requires { places ≤ 4 }
    ensures { PrintsTo W.ByteSink out.old out.new
        (point_text (I.text whole) places (decimal part)) }
{
    put_column(out, 5, whole);
    out.push(b".");
    put_part(out, places, part);
}

/// Prints the columns for the width, the iteration and the present-congestion factor.
fn put_iteration<W: ByteSink>(out: &mut Printer<'_, W>, width: u32, iteration: u32, present: u32)
    ensures { PrintsTo W.ByteSink out.old out.new
        (iteration_text width iteration present) }
{
    put_column(out, 5, width);
    out.push(b" ");
    put_column(out, 9, iteration);
    out.push(b" ");
    put_point(out, present / 16, 4, present % 16 * 625);
}

/// Prints the columns for what the iteration left.
fn put_figures<W: ByteSink>(
    out: &mut Printer<'_, W>,
    overused: u32,
    excess: u64,
    unrouted: u32,
    wirelength: u64,
)
    ensures { PrintsTo W.ByteSink out.old out.new
        (figures_text overused excess unrouted wirelength) }
{
    out.push(b" ");
    put_column(out, 8, overused);
    out.push(b" ");
    put_column(out, 8, excess);
    out.push(b" ");
    put_column(out, 8, unrouted);
    out.push(b" ");
    put_column(out, 10, wirelength);
}

/// Prints the time at which the iteration ended, and ends the line.
fn put_time<W: ByteSink>(out: &mut Printer<'_, W>, milliseconds: u64)
    ensures { PrintsTo W.ByteSink out.old out.new (time_text milliseconds) }
{
    out.push(b" ");
    put_point(out, milliseconds / 1000, 3, (milliseconds % 1000) as u32);
    out.push(b"\n");
}

/// Prints the line of an iteration, from the book that it left.
fn put_row<W: ByteSink>(
    out: &mut Printer<'_, W>,
    settings: &Settings,
    iteration: u32,
    book: &Book,
    milliseconds: u64,
)
    requires { (1 ≤ iteration) × (iteration ≤ most_iterations) }
    ensures { PrintsTo W.ByteSink out.old out.new
        (row_text settings.now iteration book.now milliseconds) }
{
    let width = book.problem().device().width();
    let present = settings.present(iteration);
    put_iteration(out, width, iteration, present);
    put_figures(
        out,
        book.overused(),
        book.excess(),
        book.unrouted(),
        book.wirelength(),
    );
    put_time(out, milliseconds);
}

/// Writes the line of an iteration, from the book that it left, at once.
#[inline(never)]
pub fn write_row<W: ByteSink>(
    sink: &mut W,
    settings: &Settings,
    iteration: u32,
    book: &Book,
    milliseconds: u64,
) -> Result<(), AppFault>
    requires { (1 ≤ iteration) × (iteration ≤ most_iterations) }
    ensures { PrintsText (writing_to W.taken W.failed sink.old sink.new)
        (row_text settings.now iteration book.now milliseconds) tt result }
{
    let mut printer = Printer::new(sink);
    put_row(&mut printer, settings, iteration, book, milliseconds);
    match printer.finish() {
        Ok(()) => Ok(()),
        Err(_) => Err(AppFault::Unwritten),
    }
}
