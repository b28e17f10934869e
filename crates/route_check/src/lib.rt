//! Whether a routing routes a problem, judged from lists of pairs alone (Betz, Rose and Marquardt
//! 1999; McMurchie and Ebeling 1995).
#![tactic(auto)]

mod check;
mod fault;
mod judge;
mod ladder;
mod listing;
mod order;
mod terminals;
mod usage;
mod walks;

pub use check::{check_routing, net_faults};
pub use fault::RouteFault;
