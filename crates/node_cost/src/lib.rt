//! The cost of a node for a net, and the view of a net: the occupancies by other nets and the
//! histories (McMurchie and Ebeling 1995; Betz, Rose and Marquardt 1999).
#![tactic(auto)]

mod counts;
mod entry_cost;
mod histories;
mod packed;
mod settings;
mod shared;
mod standard;
mod view;
mod words;

pub use counts::Counts;
pub use entry_cost::{
    GREATEST_BASE, GREATEST_HISTORY, GREATEST_OTHERS, GREATEST_PRESENT, UNIT_FACTOR, cost,
};
pub use histories::Histories;
pub use settings::{MOST_ACC, MOST_BB, MOST_ITERATIONS, MOST_MULT, MOST_WORKERS, Range, Settings};
pub use view::{BorrowedView, View};
