//! The widths that are tried, one after another.

ghost use Rattle.std.specs.Prelude.{◌≡◌, Some};
ghost use Rattle.width_search.specs.Widths.{doubled, first_upward, greatest_unrouted, halved, least_routed, next_upward, next_width, one_more, upward_after, with_routed, with_unrouted};

use rr_graph::MOST_TRACKS;

/// A channel width that was tried, in tracks.
#[derive(Clone, Copy, Debug, PartialEq, Eq)]
pub struct Trial {
    pub width: u32,
    /// Whether a routing was found at this width.
    pub routed: bool,
}

/// Returns the least width that was routed, after one more trial.
fn with_routed(least: Option<u32>, trial: Trial) -> Option<u32>
    ensures { result ≡ with_routed least trial }
{
    if trial.routed {
        Some(least.unwrap_or(trial.width).min(trial.width))
    } else {
        least
    }
}

/// Returns the greatest width that was not routed, after one more trial.
fn with_unrouted(greatest: u32, trial: Trial) -> u32
    ensures { result ≡ with_unrouted greatest trial }
{
    if trial.routed {
        greatest
    } else {
        greatest.max(trial.width)
    }
}

/// Returns the least width that was routed, if one was.
#[tactic(auto, unfolding(crate::specs::Widths::least_routed))]
fn least_routed(trials: &[Trial]) -> Option<u32>
    ensures { result ≡ least_routed trials.now }
{
    trials
        .iter()
        .fold(None, |least, trial| with_routed(least, *trial))
}

/// Returns the greatest width that was not routed, or 0 if there is none.
#[tactic(auto, unfolding(crate::specs::Widths::greatest_unrouted))]
fn greatest_unrouted(trials: &[Trial]) -> u32
    ensures { result ≡ greatest_unrouted trials.now }
{
    trials
        .iter()
        .fold(0, |greatest, trial| with_unrouted(greatest, *trial))
}

/// Returns the width to try after `last` while none was routed: twice that, but at most the
/// greatest width. Returns `None` after the greatest width.
fn doubled(last: u32) -> Option<u32>
    ensures { result ≡ doubled last }
{
    if last < MOST_TRACKS {
        Some((2 * last).min(MOST_TRACKS))
    } else {
        None
    }
}

/// Returns the middle between the greatest width that was not routed and the least that was, or
/// `None` if there is no width between them.
fn halved(unrouted: u32, routed: u32) -> Option<u32>
    ensures { result ≡ halved unrouted routed }
{
    if routed.saturating_sub(unrouted) > 1 {
        Some(unrouted.midpoint(routed))
    } else {
        None
    }
}

/// Returns the width to try after these trials, if there is one.
pub(crate) fn next_width(start: u32, trials: &[Trial]) -> Option<u32>
    ensures { result ≡ next_width start trials.now }
{
    let Some(last) = trials.last() else {
        return Some(start);
    };
    match least_routed(trials) {
        None => doubled(last.width),
        Some(routed) => halved(greatest_unrouted(trials), routed),
    }
}

/// Returns the first width of a search upward, if a device can have it.
fn first_upward(first: u32) -> Option<u32>
    ensures { result ≡ first_upward first }
{
    if first > MOST_TRACKS {
        None
    } else {
        Some(first)
    }
}

/// Returns one more than the last width, if a device can have it.
fn one_more(last: u32) -> Option<u32>
    ensures { result ≡ one_more last }
{
    if last >= MOST_TRACKS {
        None
    } else {
        Some(last + 1)
    }
}

/// Returns the width to try after this trial of a search upward, if there is one.
fn above(last: Trial) -> Option<u32>
    ensures { result ≡ upward_after 0 (Some last) }
{
    if last.routed {
        None
    } else {
        one_more(last.width)
    }
}

/// Returns the width to try after these trials of a search upward, if there is one.
pub(crate) fn next_upward(first: u32, trials: &[Trial]) -> Option<u32>
    ensures { result ≡ next_upward first trials.now }
{
    match trials.last() {
        None => first_upward(first),
        Some(last) => above(*last),
    }
}
