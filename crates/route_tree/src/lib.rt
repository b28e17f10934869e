//! Trees of routed nets, and when they are legal (McMurchie and Ebeling 1995; VPR and T-VPack
//! manual 4.30).
#![tactic(auto)]

mod check;
mod equality;
mod fault;
mod marks;
mod passes;
mod routing;
mod stamps;
mod tree;

pub use check::check_tree;
pub use fault::TreeFault;
pub use marks::Marks;
pub use routing::{Pairs, Routing, fits};
pub use tree::{Row, Tree};
