//! The search of widths, trial by trial.

ghost use Rattle.std.specs.Prelude.{◌≡◌, ℕ, ◌≤◌, List, IfOk};
ghost use Rattle.net_file.specs.Reads.{ReadsBytes};
ghost use Rattle.place_file.specs.Placement.{IsPlaced};
ghost use Rattle.rr_graph.specs.Fabric.{most_tracks};
ghost use Rattle.node_cost.specs.Options.{most_workers};
ghost use Rattle.rr_graph.specs.Designs.{problem_with};
ghost use Rattle.width_search.specs.Reports.{IsWidthReport, Negotiates};
ghost use Rattle.width_search.specs.Widths.{next_width};
ghost use Rattle.width_search.specs.kept.Trials.{end_of};

use crate::report::WidthReport;
use crate::trial::next_width;
use arch_file::Arch;
use iteration::{Outcome, negotiate};
use net_file::Netlist;
use net_workers::{Gate, TrialEnd, WorkFault};
use node_cost::Settings;
use place_file::Placement;
use rr_graph::{MadeOfDesigns, Mode, Problem};
use std::alloc::Global;
use std::sync::Wait;
use std::thread::Threads;

/// Converts the outcome of a trial into what the gate is called with.
pub(crate) fn end_of(outcome: &Outcome) -> TrialEnd
    ensures { result ≡ end_of outcome.now }
{
    match outcome {
        Outcome::Success(_, iterations) => TrialEnd::Routed {
            iterations: *iterations,
        },
        Outcome::NotRouted {
            unrouted,
            overused,
            iterations,
        } => TrialEnd::NotRouted {
            unrouted: *unrouted,
            overused: *overused,
            iterations: *iterations,
        },
    }
}

/// A netlist, read and placed for an architecture, and how its nets are routed on a device.
#[derive(Clone, Copy)]
pub struct PlacedDesign<'a, 't> {
    pub arch: &'a Arch,
    pub netlist: &'a Netlist<'t>,
    pub placement: &'a Placement,
    pub mode: Mode,
}

/// How each width is negotiated: the settings, the number of workers, and the gate that is called.
#[derive(Clone, Copy)]
pub struct Negotiating<'a, G> {
    pub settings: &'a Settings,
    pub workers: u32,
    pub gate: &'a G,
}

/// Negotiates a routing of a design on a device of this width. The gate is called with the width
/// before.
///
/// # Errors
/// As for `least_width`.
pub fn negotiate_at<R: Threads + Wait + Sync, G: Gate + Sync>(
    rt: &R,
    alloc: Global,
    design: &PlacedDesign<'_, '_>,
    how: &Negotiating<'_, G>,
    width: u32,
) -> Result<Outcome, WorkFault>
    requires tracks { (1 ≤ width) × (width ≤ most_tracks) }
    requires workers { (1 ≤ how.now.workers) × (how.now.workers ≤ most_workers) }
    requires read { (bytes : List ℕ)
        × ReadsBytes design.now.arch.now.pins bytes design.now.netlist.now }
    requires placed { IsPlaced design.now.arch.now.io_rat design.now.netlist.now.blocks
        design.now.placement.now }
    ensures { IfOk result (Negotiates (problem_with design.now.mode design.now.arch.now
        design.now.netlist.now design.now.placement.now) how.now.settings.now how.now.workers
        (G.accepted how.now.gate.now) width) }
{
    let PlacedDesign {
        arch,
        netlist,
        placement,
        mode,
    } = *design;
    let Negotiating {
        settings,
        workers,
        gate,
    } = *how;
    gate.tries(width);
    let problem = Problem::from_design(alloc, arch, netlist, placement, width, mode)?;
    negotiate(rt, alloc, problem, settings, workers, gate)
}

/// Searches for the least channel width at which a netlist, read and placed for this architecture,
/// is routed. The widths double from `start` on, up to 256, until one is routed. From then on each
/// trial halves the gap between the greatest width that was not routed and the least that was. Each
/// trial is a negotiation on a new book, on a device of its own. The gate is called before and
/// after each trial.
///
/// The least width found need not be the least possible: the search tries only some widths, and a
/// greater width may fail where a lesser one does not.
///
/// # Errors
/// `NoThread`, `Memory` and `Astray` as `negotiate` returns them. `Memory` also if it runs out for
/// a device, a problem or the list of trials. The call waits for the workers.
pub fn least_width<R: Threads + Wait + Sync, G: Gate + Sync>(
    rt: &R,
    alloc: Global,
    arch: &Arch,
    netlist: &Netlist<'_>,
    placement: &Placement,
    settings: &Settings,
    start: u32,
    mode: Mode,
    workers: u32,
    gate: &G,
) -> Result<WidthReport, WorkFault>
    requires start { (1 ≤ start) × (start ≤ most_tracks) }
    requires workers { (1 ≤ workers) × (workers ≤ most_workers) }
    requires read { (bytes : List ℕ) × ReadsBytes arch.now.pins bytes netlist.now }
    requires placed { IsPlaced arch.now.io_rat netlist.now.blocks placement.now }
    // The trials are those that the search makes, and the routing is that of the least width that
    // was routed.
    ensures { IfOk result (IsWidthReport (Negotiates
        (problem_with mode arch.now netlist.now placement.now) settings.now workers
        (G.accepted gate.now)) (next_width start)) }
{
    let design = PlacedDesign {
        arch,
        netlist,
        placement,
        mode,
    };
    let how = Negotiating {
        settings,
        workers,
        gate,
    };
    let mut report = WidthReport::new(alloc);
    while let Some(width) = next_width(start, report.trials()) {
        let outcome = negotiate_at(rt, alloc, &design, &how, width)?;
        gate.tried(width, end_of(&outcome));
        report.add(width, outcome)?;
    }
    Ok(report)
}
