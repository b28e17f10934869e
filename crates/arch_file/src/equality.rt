//! Whether two architectures are the same.

ghost use Rattle.std.specs.Prelude.{◌≡◌, ◌↔◌, true};
ghost use Rattle.std.specs.Cmp.Lexicographic.{pointwise};
ghost use Rattle.arch_file.specs.Equality.{same_pin, same_segment, same_switch, is_same_architecture};
ghost use Rattle.arch_file.specs.EqualityLaws.{same_architecture_symmetric, same_architecture_equivalence};

use crate::arch::Arch;
use crate::entries::{Pin, Segment, Switch};

fn are_same_pins(a: &[Pin], b: &[Pin]) -> bool
    ensures { result ≡ pointwise same_pin a.now b.now }
{
    a == b
}

fn are_same_segments(a: &[Segment], b: &[Segment]) -> bool
    ensures { result ≡ pointwise same_segment a.now b.now }
{
    a == b
}

fn are_same_switches(a: &[Switch], b: &[Switch]) -> bool
    ensures { result ≡ pointwise same_switch a.now b.now }
{
    a == b
}

impl Arch {
    /// Whether this architecture has the entries of another one, in the same order.
    #[tactic(auto, unfolding(crate::specs::Equality::is_same_architecture))]
    fn has_entries_of(&self, other: &Arch) -> bool
        ensures { result ≡ is_same_architecture self.now other.now }
    {
        self.io_rat == other.io_rat
            && are_same_pins(&self.pins, &other.pins)
            && self.fc_type == other.fc_type
            && self.fc_output == other.fc_output
            && self.fc_input == other.fc_input
            && self.fc_pad == other.fc_pad
            && are_same_segments(&self.segments, &other.segments)
            && are_same_switches(&self.switches, &other.switches)
    }
}

impl PartialEq for Arch {
    ghost eq = { is_same_architecture };

    ghost laws = { same_architecture_symmetric };

    /// Whether the two have the same entries, in the same order.
    #[tactic(auto, using(crate::specs::EqualityLaws::same_architecture))]
    fn eq(&self, other: &Arch) -> bool
        ensures test { result ≡ is_same_architecture self.now other.now }
        ensures same { (result ≡ true) ↔ (self.now ≡ other.now) }
    {
        self.has_entries_of(other)
    }
}

impl Eq for Arch {
    ghost laws = { same_architecture_equivalence };
}
