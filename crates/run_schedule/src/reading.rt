//! Reading the trials of a schedule.

ghost use Rattle.std.specs.Prelude.{◌≡◌, ◌≤◌, ◌||◌, ◌==◌, IfOk, length, true};
ghost use Rattle.node_cost.specs.Options.{most_iterations};
ghost use Rattle.routing_problem.specs.Fabric.{most_tracks};
ghost use Rattle.run_schedule.specs.Schedules.{AreTrials, IsIteration, IsTrial};
ghost use Rattle.run_schedule.specs.kept.Made.{MayFollow, with_turn};
ghost use Rattle.run_schedule.specs.kept.Reading.{begins, EndsTrial, is_at_end, is_at_iteration, is_at_trial, is_past_turns, Reads};
ghost use Rattle.run_schedule.specs.ScheduleTexts.{iteration_text, iterations_text, trial_text, trials_text, turn_text, turns_text};
ghost use Rattle.run_schedule.specs.kept.Taking.{IsAny, IsWithin};

use crate::fault::FaultKind;
use crate::made::MadeTurns;
use crate::text::Text;
use crate::trial::{Trial, Trials, Turns};
use gates::ScheduledTurn;
use node_cost::MOST_ITERATIONS;
use routing_problem::MOST_TRACKS;
use std::alloc::Global;

fn begins(text: &[u8], byte: u8) -> bool
    ensures { result ≡ begins byte text.now }
{
    match text.first() {
        Some(first) => *first == byte,
        None => false,
    }
}

/// Returns whether a text begins with a line that ends the turns of an iteration.
fn is_past_turns(text: &[u8]) -> bool
    ensures { result ≡ is_past_turns text.now }
{
    begins(text, b'i') || (begins(text, b'w') || begins(text, b'e'))
}

/// Reads the next turn after those that were made, and adds it to them.
fn read_turn(text: &mut Text<'_>, made: &mut MadeTurns) -> Result<ScheduledTurn, FaultKind>
    ensures read { Reads (MayFollow made.old) turn_text IsAny text.old text.new result }
    ensures made { IfOk result (λ turn. made.new ≡ with_turn made.old turn) }
{
    let mut ahead = text.again();
    let turn = made.accepted(ahead.take_turn())?;
    made.push(turn)?;
    *text = ahead;
    Ok(turn)
}

/// Reads the turns of an iteration.
fn read_turns(
    alloc: Global,
    text: &mut Text<'_>,
    nets: u32,
    workers: u32,
) -> Result<Turns, FaultKind>
    ensures { Reads (IsIteration nets workers) turns_text
        (λ later. is_past_turns later ≡ true) text.old text.new result }
{
    let mut made = MadeTurns::new(alloc, nets, workers)?;
    while !is_past_turns(text.rest()) {
        read_turn(text, &mut made)?;
    }
    made.finish()
}

/// Reads the iteration with this number.
fn read_iteration(
    alloc: Global,
    text: &mut Text<'_>,
    number: u32,
    nets: u32,
    workers: u32,
) -> Result<Turns, FaultKind>
    ensures { Reads (λ turns. (number ≤ most_iterations) × IsIteration nets workers turns)
        (iteration_text number) (λ later. is_past_turns later ≡ true) text.old text.new result }
{
    let most = number.min(MOST_ITERATIONS);
    if text.take_within(b"iteration ", number, most).is_none() {
        return Err(FaultKind::BadIteration);
    }
    read_turns(alloc, text, nets, workers)
}

/// Returns whether an iteration follows those that were read. A trial has at least one.
fn has_iteration(text: &[u8], trial: &Trial) -> bool
    ensures { result ≡ (length trial.now.iterations == 0 || is_at_iteration text.now) }
{
    trial.iterations().is_empty() || begins(text, b'i')
}

/// Reads the iterations of a trial of this width.
fn read_iterations(
    alloc: Global,
    text: &mut Text<'_>,
    width: u32,
    nets: u32,
    workers: u32,
) -> Result<Trial, FaultKind>
    requires { IsWithin 1 most_tracks width }
    ensures { Reads (λ trial. IsTrial nets workers trial × (trial.width ≡ width))
        (λ trial. iterations_text 1 trial.iterations) EndsTrial text.old text.new result }
{
    let mut trial = Trial::new(alloc, width);
    let mut number = 1;
    while has_iteration(text.rest(), &trial) {
        let turns = read_iteration(alloc, text, number, nets, workers)?;
        trial.push(turns)?;
        number += 1;
    }
    Ok(trial)
}

/// Reads a trial.
fn read_trial(
    alloc: Global,
    text: &mut Text<'_>,
    nets: u32,
    workers: u32,
) -> Result<Trial, FaultKind>
    ensures { Reads (IsTrial nets workers) trial_text EndsTrial text.old text.new result }
{
    let Some(width) = text.take_within(b"width ", 1, MOST_TRACKS) else {
        return Err(FaultKind::BadWidth);
    };
    read_iterations(alloc, text, width, nets, workers)
}

/// Returns whether a trial follows those that were read. A run has at least one.
fn has_trial(text: &[u8], trials: &Trials) -> bool
    ensures { result ≡ (length trials.now == 0 || is_at_trial text.now) }
{
    trials.is_empty() || begins(text, b'w')
}

/// Reads the trials of a run.
pub(crate) fn read_trials(
    alloc: Global,
    text: &mut Text<'_>,
    nets: u32,
    workers: u32,
) -> Result<Trials, FaultKind>
    ensures { Reads (AreTrials nets workers) trials_text (λ later. is_at_end later ≡ true) text.old
        text.new result }
{
    let mut trials = Trials::new(alloc);
    while has_trial(text.rest(), &trials) {
        let trial = read_trial(alloc, text, nets, workers)?;
        trials.push(trial)?;
    }
    Ok(trials)
}
