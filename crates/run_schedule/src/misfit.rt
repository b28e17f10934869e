//! Where the head of a schedule isn't that of a run.

ghost use Rattle.std.specs.Prelude.{◌≡◌, ◌↔◌, ◌≤◌, IsNone, length};

use crate::fault::{FaultKind, ScheduleFault};
use crate::text::line_at;

/// Returns the length of the longest common front of two texts.
fn common_length(one: &[u8], other: &[u8]) -> usize
    ensures { result ≤ length one.now }
{
    let most = one.len().min(other.len());
    for index in 0..most {
        if one[index] != other[index] {
            return index;
        }
    }
    most
}

/// Returns what is wrong with a line of a head that isn't that of the run.
fn kind_of(line: u32) -> FaultKind {
    match line {
        1 => FaultKind::OtherProgram,
        2 => FaultKind::OtherRun,
        3 => FaultKind::OtherNet,
        4 => FaultKind::OtherArch,
        5 => FaultKind::OtherPlace,
        6 => FaultKind::OtherWorkers,
        13 => FaultKind::OtherNets,
        _ => FaultKind::OtherOptions,
    }
}

/// Returns the first line of a head that isn't that of the run.
pub(crate) fn head_misfit(head: &[u8], expected: &[u8]) -> Option<ScheduleFault>
    ensures { IsNone result ↔ (head.now ≡ expected.now) }
{
    if head == expected {
        return None;
    }
    let length = common_length(head, expected);
    let line = line_at(head, head.split_at(length).1);
    Some(ScheduleFault {
        line,
        kind: kind_of(line),
    })
}
