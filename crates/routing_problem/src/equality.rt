//! Whether two devices, nets or problems are the same.

ghost use Rattle.std.specs.Prelude.{◌≡◌, ◌↔◌, true};
ghost use Rattle.std.specs.Cmp.Lexicographic.{pointwise};
ghost use Rattle.routing_problem.specs.Equality.{same_mode, same_number, is_same_device, is_same_net, is_same_problem};
ghost use Rattle.routing_problem.specs.EqualityLaws.{same_device_symmetric, same_device_equivalence, same_net_symmetric, same_net_equivalence, same_problem_symmetric, same_problem_equivalence};

use crate::device::Device;
use crate::nets::Terminals;
use crate::problem::Problem;
use channel_tables::Mode;

fn are_same_modes(a: Mode, b: Mode) -> bool
    ensures { result ≡ same_mode a b }
{
    a == b
}

impl Device {
    /// Whether this device is made of the same parts as another one.
    #[tactic(auto, unfolding(crate::specs::Equality::is_same_device))]
    fn has_fabric_of(&self, other: &Device) -> bool
        ensures { result ≡ is_same_device self.now other.now }
    {
        self.nx() == other.nx()
            && self.ny() == other.ny()
            && self.width() == other.width()
            && are_same_modes(self.mode(), other.mode())
            && *self.architecture() == *other.architecture()
    }
}

impl PartialEq for Device {
    ghost eq = { is_same_device };

    ghost laws = { same_device_symmetric };

    /// Whether the two have the same architecture, array, width and mode.
    #[tactic(auto, using(crate::specs::EqualityLaws::same_device))]
    fn eq(&self, other: &Device) -> bool
        ensures test { result ≡ is_same_device self.now other.now }
        ensures same { (result ≡ true) ↔ (self.now ≡ other.now) }
    {
        self.has_fabric_of(other)
    }
}

impl Eq for Device {
    ghost laws = { same_device_equivalence };
}

fn are_same_numbers(a: &[u32], b: &[u32]) -> bool
    ensures { result ≡ pointwise same_number a.now b.now }
{
    a == b
}

impl Terminals {
    /// Whether this net has the entries of another one.
    #[tactic(auto, unfolding(crate::specs::Equality::is_same_net))]
    fn has_entries_of(&self, other: &Terminals) -> bool
        ensures { result ≡ is_same_net self.now other.now }
    {
        self.number == other.number
            && self.source == other.source
            && are_same_numbers(&self.sinks, &other.sinks)
    }
}

impl PartialEq for Terminals {
    ghost eq = { is_same_net };

    ghost laws = { same_net_symmetric };

    /// Whether the two have the same number, source and sinks.
    #[tactic(auto, using(crate::specs::EqualityLaws::same_net))]
    fn eq(&self, other: &Terminals) -> bool
        ensures test { result ≡ is_same_net self.now other.now }
        ensures same { (result ≡ true) ↔ (self.now ≡ other.now) }
    {
        self.has_entries_of(other)
    }
}

impl Eq for Terminals {
    ghost laws = { same_net_equivalence };
}

fn are_same_nets(a: &[Terminals], b: &[Terminals]) -> bool
    ensures { result ≡ pointwise is_same_net a.now b.now }
{
    a == b
}

impl Problem {
    /// Whether this problem has the device and the nets of another one.
    #[tactic(auto, unfolding(crate::specs::Equality::is_same_problem))]
    fn has_parts_of(&self, other: &Problem) -> bool
        ensures { result ≡ is_same_problem self.now other.now }
    {
        self.device == other.device && are_same_nets(&self.nets, &other.nets)
    }
}

impl PartialEq for Problem {
    ghost eq = { is_same_problem };

    ghost laws = { same_problem_symmetric };

    /// Whether the two have the same device and the same nets.
    #[tactic(auto, using(crate::specs::EqualityLaws::same_problem))]
    fn eq(&self, other: &Problem) -> bool
        ensures test { result ≡ is_same_problem self.now other.now }
        ensures same { (result ≡ true) ↔ (self.now ≡ other.now) }
    {
        self.has_parts_of(other)
    }
}

impl Eq for Problem {
    ghost laws = { same_problem_equivalence };
}
