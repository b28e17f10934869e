//! The result of a run that explains its verdict.

ghost use Rattle.std.specs.Prelude.{◌≡◌, Err};
ghost use Rattle.run_inputs.specs.Faults.{fault_text};
ghost use Rattle.run_inputs.specs.Runs.{writing_to};
ghost use Rattle.route_explain.specs.Explanation.{PrintsLine};

use route_check::RouteFault;
use run_inputs::{AppFault, print_fault};
use vpr_text::ByteSink;

/// A verdict that was printed, and the outcome of its explanation.
#[derive(Debug, Drop)]
pub struct Explained {
    /// The verdict, `None` if the routing is legal.
    pub verdict: Option<RouteFault>,
    /// `Ok` if the explanation was printed, `Unwritten` if its sink failed, which took a front of
    /// it, and `Memory` if memory ran out. Then the line of that fault was printed in its place.
    pub told: Result<(), AppFault>,
}

/// Prints that memory ran out in place of an explanation, and returns that fault.
pub(crate) fn told_memory<W: ByteSink>(words: &mut W) -> Result<(), AppFault>
    ensures fault { result ≡ Err AppFault.Memory }
    ensures line { PrintsLine (writing_to W.taken W.failed words.old words.new)
        (fault_text AppFault.Memory) }
{
    match print_fault(&AppFault::Memory, words) {
        Ok(()) => Err(AppFault::Memory),
        Err(_) => Err(AppFault::Memory),
    }
}
