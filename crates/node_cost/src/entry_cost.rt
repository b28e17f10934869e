//! The cost of entering a node.

ghost use Rattle.std.specs.Prelude.{◌≡◌, ◌≤◌, ◌<◌, ◌+◌, ◌-◌, ◌*◌, ◌^◌};
ghost use Rattle.node_cost.specs.Costs.{cost_of};

/// The number that means a factor of 1: factors are in sixteenths.
pub const UNIT_FACTOR: u32 = 16;

/// The greatest base cost of a node.
pub const GREATEST_BASE: u32 = 20;

/// The greatest number of other nets that use a node: a problem has at most as many nets.
pub const GREATEST_OTHERS: u32 = 65535;

/// An upper bound of histories: 500 iterations of 65,535 nets at a factor of 65,535 give less.
pub const GREATEST_HISTORY: u64 = 1 << 42;

/// The greatest present-congestion factor.
pub const GREATEST_PRESENT: u32 = 1 << 20;

/// Returns the factor of a node's cost: 16, which means 1, and more for each net beyond the node's
/// capacity.
#[tactic(auto, using(crate::proofs::Bounds::factor_bounded))]
fn congestion_factor(capacity: u32, others: u32, present: u32) -> u64
    requires capacity { 1 ≤ capacity }
    requires others { others ≤ GREATEST_OTHERS }
    requires present { present ≤ GREATEST_PRESENT }
    ensures exact { result ≡ UNIT_FACTOR + present * (others + 1 - capacity) }
    ensures bounded { result ≤ 2 ^ 37 }
{
    let excess = (others + 1).saturating_sub(capacity);
    u64::from(UNIT_FACTOR) + u64::from(present) * u64::from(excess)
}

/// Returns the cost of entering a node: its base cost plus its history, times a factor that grows
/// with each net beyond the node's capacity, this one included. A factor of 16 means 1.
#[tactic(auto, using(crate::proofs::Bounds::cost_bounded))]
pub fn cost(base: u32, history: u64, capacity: u32, others: u32, present: u32) -> u128
    requires base { base ≤ GREATEST_BASE }
    requires history { history ≤ GREATEST_HISTORY }
    requires capacity { 1 ≤ capacity }
    requires others { others ≤ GREATEST_OTHERS }
    requires present { present ≤ GREATEST_PRESENT }
    ensures exact { result ≡ cost_of base history capacity others present }
    ensures bounded { result < 2 ^ 80 }
{
    let factor = congestion_factor(capacity, others, present);
    u128::from(u64::from(base) + history) * u128::from(factor)
}
