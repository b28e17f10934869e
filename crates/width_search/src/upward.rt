//! The search of widths upward, which leaves none out.

ghost use Rattle.std.specs.Prelude.{◌≡◌, ℕ, ◌≤◌, List, IfOk};
ghost use Rattle.net_file.specs.Reads.{ReadsBytes};
ghost use Rattle.place_file.specs.Placement.{IsPlaced};
ghost use Rattle.node_cost.specs.Options.{most_workers};
ghost use Rattle.rr_graph.specs.Designs.{problem_with};
ghost use Rattle.width_search.specs.Reports.{EndsUpward, IsWidthReport, Negotiates};
ghost use Rattle.width_search.specs.Widths.{GoesUpward, next_upward};

use crate::report::WidthReport;
use crate::search::{Negotiating, PlacedDesign, end_of, negotiate_at};
use crate::trial::next_upward;
use net_workers::{Gate, WorkFault};
use std::alloc::Global;
use std::sync::Wait;
use std::thread::Threads;

/// Tries each channel width from `first` on, upward and leaving none out, until a placed design is
/// routed, or until 256 was not. If `first` is above 256, there is
/// no trial. Each trial is a negotiation on a new book, on a device of its own. The gate is called
/// before and after each trial.
///
/// # Errors
/// As for `least_width`.
pub fn upward_width<R: Threads + Wait + Sync, G: Gate + Sync>(
    rt: &R,
    alloc: Global,
    design: &PlacedDesign<'_, '_>,
    how: &Negotiating<'_, G>,
    first: u32,
) -> Result<WidthReport, WorkFault>
    requires first { 1 ≤ first }
    requires workers { (1 ≤ how.now.workers) × (how.now.workers ≤ most_workers) }
    requires read { (bytes : List ℕ)
        × ReadsBytes design.now.arch.now.pins bytes design.now.netlist.now }
    requires placed { IsPlaced design.now.arch.now.io_rat design.now.netlist.now.blocks
        design.now.placement.now }
    // The trials are those that such a search makes, and the routing is that of the least width
    // that was routed.
    ensures report { IfOk result (IsWidthReport (Negotiates
        (problem_with design.now.mode design.now.arch.now design.now.netlist.now
        design.now.placement.now) how.now.settings.now how.now.workers
        (G.accepted how.now.gate.now)) (next_upward first)) }
    // That is: trial i is of the width first + i, and each but the last was not routed.
    ensures upward { IfOk result (λ r. GoesUpward first r.trials) }
    // The routing is that of the last trial. If there is none, no width is left.
    ensures ends { IfOk result (λ r. EndsUpward first r.trials r.least) }
{
    let mut report = WidthReport::new(alloc);
    while let Some(width) = next_upward(first, report.trials()) {
        let outcome = negotiate_at(rt, alloc, design, how, width)?;
        how.gate.tried(width, end_of(&outcome));
        report.add(width, outcome)?;
    }
    Ok(report)
}
