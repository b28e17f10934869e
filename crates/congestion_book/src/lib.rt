//! The congestion book: the recorded trees of nets, how many of them use each node, and the
//! histories that their overuse leaves (McMurchie and Ebeling 1995).
#![tactic(auto)]

mod book;
mod book_state;
mod events;
mod faults;
mod filling;
mod history;
mod net_view;
mod routes;
mod totals;
mod turn;
mod turns;
mod usage;
mod wirelength;

pub use book::Book;
pub use events::{Event, Reply, RunFault};
pub use faults::{CloseFault, CommitFault, DrawFault, PassFault};
pub use history::OveruseRow;
pub use totals::{leave_net, replace_net, return_net};
pub use turn::Turn;
