//! The result of a search of widths.

ghost use Rattle.std.specs.Prelude.{◌≡◌, ◌≤◌, IfSome, None, OnErr, OnOk, [], option_copied};
ghost use Rattle.rr_graph.specs.Fabric.{most_tracks};
ghost use Rattle.width_search.specs.Reports.{is_success, with_trial};

use crate::trial::Trial;
use iteration::Outcome;
use route_tree::Routing;
use std::alloc::{AllocError, Global};
use std::marker::Model;

/// The least width at which a routing was found, in tracks, and that routing.
#[derive(Debug, Drop)]
pub struct LeastWidth {
    pub width: u32,
    pub routing: Routing,
}

/// The result of a search of widths: the trials in order, and the least width that was routed, if
/// one was. Contracts see a record of both, with the trials as a list.
#[derive(Debug, Drop)]
pub struct WidthReport {
    trials: Vec<Trial>,
    least: Option<LeastWidth>,
}

impl Model for WidthReport {
    ghost use Rattle.std.specs.Prelude.{◌≤◌, IfSome};
    ghost use Rattle.rr_graph.specs.Fabric.{most_tracks};
    ghost use Rattle.width_search.specs.Reports.{Report};

    ghost Value = { Report };

    ghost view = { λ r. record { trials = r.trials.items; least = r.least } };

    ghost invariant = { λ r. IfSome r.least
        (λ least. (1 ≤ least.width) × (least.width ≤ most_tracks)) };
}

/// Returns whether a negotiation found a routing.
fn is_success(outcome: &Outcome) -> bool
    ensures { result ≡ is_success outcome.now }
{
    matches!(outcome, Outcome::Success(_, _))
}

impl WidthReport {
    /// Returns the report before the first trial.
    pub(crate) fn new(alloc: Global) -> WidthReport
        ensures { result ≡ record { trials = []; least = None } }
    {
        WidthReport {
            trials: Vec::new(alloc),
            least: None,
        }
    }

    /// Returns the widths that were tried, in order.
    pub fn trials(&self) -> &[Trial]
        ensures { result.now ≡ self.now.trials }
    {
        &self.trials
    }

    /// Returns the least width at which a routing was found, with that routing, or `None` if none
    /// was found.
    pub fn least(&self) -> Option<&LeastWidth>
        ensures least { option_copied result ≡ self.now.least }
        ensures tracks { IfSome result (λ l. (1 ≤ l.now.width) × (l.now.width ≤ most_tracks)) }
    {
        self.least.as_ref()
    }

    /// Adds the trial of a width with the outcome of its negotiation. A routing replaces the one
    /// before. Callers add widths that the search itself left out, each less than those that were
    /// routed.
    ///
    /// # Errors
    /// If memory ran out. The report is then as before.
    pub fn add(&mut self, width: u32, outcome: Outcome) -> Result<(), AllocError>
        requires { (1 ≤ width) × (width ≤ most_tracks) }
        ensures adds { OnOk result (self.new ≡ with_trial self.old width outcome) }
        ensures keeps { OnErr result (self.new ≡ self.old) }
    {
        let routed = is_success(&outcome);
        self.trials.push(Trial { width, routed })?;
        if let Outcome::Success(routing, _) = outcome {
            self.least = Some(LeastWidth { width, routing });
        }
        Ok(())
    }
}
