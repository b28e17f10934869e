//! Widths below the least that a search found. Each is tried, even if the search tried it before.

ghost use Rattle.std.specs.Prelude.{◌≡◌, ℕ, ◌≤◌, true, if◌then◌else◌, List, Some, IfErr, IfOk};
ghost use Rattle.text_output.specs.Printing.{PrintsTo};
ghost use Rattle.rr_graph.specs.Fabric.{most_tracks};
ghost use Rattle.node_cost.specs.Options.{most_workers};
ghost use Rattle.width_search.specs.Reports.{IsVerifiedReport, IsWidthReport, is_success};
ghost use Rattle.width_search.specs.Widths.{next_width};
ghost use Rattle.width_search.specs.kept.Verifying.{IsVerifying};
ghost use Rattle.run_inputs.specs.Faults.{fault_text, is_free};
ghost use Rattle.runs.specs.LesserWidths.{TriesBelow, TriesLesser, lesser_end, lesser_routed, width_text};
ghost use Rattle.runs.specs.kept.Lesser.{AddsSuccess, TriesAll, TriesWidth};
ghost use Rattle.runs.specs.kept.Negotiated.{Negotiated};
ghost use Rattle.runs.specs.kept.Routing.{ended_text};
ghost use Rattle.runs.specs.kept.Told.{TellsTo};

use crate::bound::PAST_WIDTHS;
use crate::kept_trials::KeptTrials;
use crate::outcome::{OutcomeEnd, end_of, put_end};
use crate::run_options::RunOptions;
use crate::side_files::SideFiles;
use crate::tried_widths::Widths;
use iteration::Outcome;
use net_workers::{BothGates, Gate};
use run_inputs::{AppFault, print_fault};
use std::alloc::AllocGlobal;
use std::sync::Wait;
use std::thread::Threads;
use text_output::{ByteSink, Piece, Printer};
use width_search::{Negotiating, PlacedDesign, WidthReport, negotiate_at};

/// Prints how the negotiation of a width ended.
fn put_line<W: ByteSink>(out: &mut Printer<'_, W>, width: u32, end: OutcomeEnd)
    ensures { PrintsTo W.ByteSink out.old out.new
        (width_text width (ended_text end)) }
{
    out.push(b"width ");
    out.put_number(width);
    out.push(b": ");
    put_end(out, end);
}

/// Prints that a width was routed.
#[tactic(auto, unfolding(crate::specs::LesserWidths::lesser_routed))]
fn put_routed<W: ByteSink>(out: &mut Printer<'_, W>, width: u32)
    ensures { PrintsTo W.ByteSink out.old out.new (lesser_routed width) }
{
    out.put_pieces(&[
        Piece::Text(b"lesser routed width: "),
        Piece::Number(width),
        Piece::Text(b"\n"),
    ]);
}

/// Prints the least of the lesser widths that were routed, or that none was.
fn put_last<W: ByteSink>(out: &mut Printer<'_, W>, routed: Option<u32>)
    ensures { PrintsTo W.ByteSink out.old out.new (lesser_end routed) }
{
    match routed {
        Some(width) => put_routed(out, width),
        None => out.push(b"no lesser width was routed\n"),
    }
}

/// Writes how the negotiation of a width ended, if the sink hasn't broken.
#[inline(never)]
fn tell_line<W: ByteSink>(words: &mut W, is_broken: &mut bool, width: u32, end: OutcomeEnd)
    ensures { TellsTo W.taken W.failed words.old words.new is_broken.old is_broken.new
        (width_text width (ended_text end)) }
{
    if *is_broken {
        return;
    }
    let mut printer = Printer::new(words);
    put_line(&mut printer, width, end);
    *is_broken = printer.finish().is_err();
}

/// Writes the least of the lesser widths that were routed, or that none was, if the sink hasn't
/// broken.
#[inline(never)]
fn tell_last<W: ByteSink>(words: &mut W, is_broken: &mut bool, routed: Option<u32>)
    ensures { TellsTo W.taken W.failed words.old words.new is_broken.old is_broken.new
        (lesser_end routed) }
{
    if *is_broken {
        return;
    }
    let mut printer = Printer::new(words);
    put_last(&mut printer, routed);
    *is_broken = printer.finish().is_err();
}

/// Writes why no further width can be tried, if the sink hasn't broken.
#[inline(never)]
fn tell_fault<W: ByteSink>(words: &mut W, is_broken: &mut bool, fault: &AppFault)
    ensures { TellsTo W.taken W.failed words.old words.new is_broken.old is_broken.new
        (fault_text fault.now) }
{
    if *is_broken {
        return;
    }
    *is_broken = print_fault(fault, words).is_err();
}

/// Returns whether a negotiation found a routing.
fn is_routed(outcome: &Outcome) -> bool
    ensures { result ≡ is_success outcome.now }
{
    matches!(outcome, Outcome::Success(_, _))
}

/// Adds a routing that the negotiation of a width found to the report. Returns whether it found
/// one.
fn add_success(report: &mut WidthReport, width: u32, outcome: Outcome) -> Result<bool, AppFault>
    requires { (1 ≤ width) × (width ≤ most_tracks) }
    ensures { AddsSuccess width outcome report.old report.new result }
{
    if !is_routed(&outcome) {
        return Ok(false);
    }
    report.add(width, outcome)?;
    Ok(true)
}

/// Negotiates at a width.
fn negotiate_lesser<T: Threads + Wait + Sync + AllocGlobal, G: Gate + Sync, S>(
    widths: &Widths<'_, '_, '_, T, G, S>,
    width: u32,
) -> Result<Outcome, AppFault>
    requires tracks { (1 ≤ width) × (width ≤ most_tracks) }
    requires workers { (1 ≤ widths.now.run.workers) × (widths.now.run.workers ≤ most_workers) }
    ensures outcome { IfOk result (Negotiated G.accepted widths.now width) }
    ensures free { IfErr result (λ e. is_free e ≡ true) }
{
    let Widths {
        placed,
        mode,
        ref run,
    } = *widths;
    let design = PlacedDesign {
        arch: placed.arch(),
        netlist: placed.netlist(),
        placement: placed.placement(),
        mode,
    };
    let how = Negotiating {
        settings: run.settings,
        workers: run.workers,
        gate: run.gate,
    };
    let outcome = negotiate_at(run.rt, run.rt.alloc(), &design, &how, width)?;
    Ok(outcome)
}

/// Negotiates at a width, adds a routing to the report, and writes the outcome. Returns whether
/// there is a routing.
fn try_lesser<T: Threads + Wait + Sync + AllocGlobal, W: ByteSink, G: Gate + Sync, S>(
    widths: &Widths<'_, '_, '_, T, G, S>,
    report: &mut WidthReport,
    width: u32,
    words: &mut W,
    is_broken: &mut bool,
) -> Result<bool, AppFault>
    requires tracks { (1 ≤ width) × (width ≤ most_tracks) }
    requires workers { (1 ≤ widths.now.run.workers) × (widths.now.run.workers ≤ most_workers) }
    ensures { TriesWidth (Negotiated G.accepted widths.now) width report.old report.new
        (TellsTo W.taken W.failed words.old words.new is_broken.old is_broken.new) result }
{
    let outcome = negotiate_lesser(widths, width)?;
    let end = end_of(&outcome);
    let is_routed = add_success(report, width, outcome)?;
    tell_line(words, is_broken, width, end);
    Ok(is_routed)
}

/// Returns the least width that was routed, after one more lesser width.
fn least_with(least: Option<u32>, lesser: u32, is_routed: bool) -> Option<u32>
    ensures { result ≡ (if is_routed then Some lesser else least) }
{
    if is_routed { Some(lesser) } else { least }
}

/// The outcome of the widths below the least: the least of them that was routed, or why no further
/// one could be tried; and the least width that was tried, or the width that they are below.
#[derive(Drop)]
struct Lesser {
    routed: Result<Option<u32>, AppFault>,
    past: u32,
}

/// Negotiates at up to `count` widths below `width`, the greatest first. Writes the outcome of
/// each, and adds the routings to the report.
fn try_all<T: Threads + Wait + Sync + AllocGlobal, W: ByteSink, G: Gate + Sync, S>(
    widths: &Widths<'_, '_, '_, T, G, S>,
    report: &mut WidthReport,
    width: u32,
    count: u32,
    words: &mut W,
    is_broken: &mut bool,
) -> Lesser
    requires tracks { (1 ≤ width) × (width ≤ most_tracks) }
    requires workers { (1 ≤ widths.now.run.workers) × (widths.now.run.workers ≤ most_workers) }
    ensures tries { TriesAll (Negotiated G.accepted widths.now) width count report.old report.new
        result.past (TellsTo W.taken W.failed words.old words.new is_broken.old is_broken.new)
        result.routed }
    ensures verified { (start : ℕ)
        → IsVerifying (Negotiated G.accepted widths.now) start count width 1 report.old
        → IsVerifiedReport (Negotiated G.accepted widths.now) start count report.new }
{
    let mut routed = None;
    let mut past = width;
    for step in 1..width.min(count.saturating_add(1)) {
        let lesser = width - step;
        match try_lesser(widths, report, lesser, words, is_broken) {
            Ok(is_routed) => routed = least_with(routed, lesser, is_routed),
            Err(fault) => {
                return Lesser {
                    routed: Err(fault),
                    past,
                };
            }
        }
        past = lesser;
    }
    Lesser {
        routed: Ok(routed),
        past,
    }
}

/// Tries up to `count` widths below the least that was found. Writes the outcome of each, and at
/// the end whether one was routed. If one of them can't be tried, writes that, and keeps those that
/// were routed before. Returns the least width that was tried, or `width` if none was.
fn try_below<
    T: Threads + Wait + Sync + AllocGlobal,
    W: ByteSink,
    G: Gate + Sync,
    S: SideFiles + Sync,
>(
    widths: &Widths<'_, '_, '_, T, G, S>,
    report: &mut WidthReport,
    width: u32,
    count: u32,
    words: &mut W,
    is_broken: &mut bool,
) -> u32
    requires tracks { (1 ≤ width) × (width ≤ most_tracks) }
    requires workers { (1 ≤ widths.now.run.workers) × (widths.now.run.workers ≤ most_workers) }
    ensures tries { (text : List ℕ)
        × TriesLesser (Negotiated G.accepted widths.now) width count report.old report.new result
        text × TellsTo W.taken W.failed words.old words.new is_broken.old is_broken.new text }
    ensures verified { (start : ℕ)
        → IsVerifying (Negotiated G.accepted widths.now) start count width 1 report.old
        → IsVerifiedReport (Negotiated G.accepted widths.now) start count report.new }
{
    let Widths {
        placed,
        mode,
        ref run,
    } = *widths;
    let trials = KeptTrials::new(run.rt.alloc(), placed, run.files);
    let gates = BothGates {
        first: run.gate,
        second: &trials,
    };
    let kept = Widths {
        placed,
        mode,
        run: RunOptions {
            rt: run.rt,
            settings: run.settings,
            workers: run.workers,
            gate: &gates,
            files: run.files,
        },
    };
    let Lesser { routed, past } = try_all(&kept, report, width, count, words, is_broken);
    match routed {
        Ok(routed) => tell_last(words, is_broken, routed),
        Err(fault) => tell_fault(words, is_broken, &fault),
    }
    past
}

/// Tries up to `below` widths below the least that a search found, and adds those that are routed
/// to its report. Returns the least width from which on all widths up to that of the search were
/// tried, or `PAST_WIDTHS` if the search found none.
pub(crate) fn verify<
    T: Threads + Wait + Sync + AllocGlobal,
    W: ByteSink,
    G: Gate + Sync,
    S: SideFiles + Sync,
>(
    widths: &Widths<'_, '_, '_, T, G, S>,
    report: &mut WidthReport,
    below: u32,
    words: &mut W,
    is_broken: &mut bool,
) -> u32
    requires workers { (1 ≤ widths.now.run.workers) × (widths.now.run.workers ≤ most_workers) }
    ensures tries { (text : List ℕ)
        × TriesBelow (Negotiated G.accepted widths.now) below report.old report.new result text
        report.old.least
        × TellsTo W.taken W.failed words.old words.new is_broken.old is_broken.new text }
    ensures verified { (start : ℕ)
        → IsWidthReport (Negotiated G.accepted widths.now) (next_width start) report.old
        → IsVerifiedReport (Negotiated G.accepted widths.now) start below report.new }
{
    let width = match report.least() {
        Some(least) => least.width,
        None => return PAST_WIDTHS,
    };
    if below == 0 {
        return width;
    }
    try_below(widths, report, width, below, words, is_broken)
}
