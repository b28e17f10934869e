//! The schedule of a run: which worker makes which turn of each iteration, and what it has seen.
#![tactic(auto)]

mod description;
mod fault;
mod file_sum;
mod follower;
mod head;
mod head_lines;
mod made;
mod misfit;
mod progress;
mod reading;
mod recorder;
mod schedule;
mod text;
mod trial;
mod writing;

pub use description::RunDescription;
pub use fault::{FaultKind, ScheduleFault};
pub use file_sum::{FileSum, Summed};
pub use follower::Follower;
pub use head::Head;
pub use head_lines::{put_amount, put_entry, put_options};
pub use recorder::{RecordFault, Recorder};
pub use schedule::{RunSchedule, read};
pub use trial::{Trial, Trials, Turns};
pub use writing::write_schedule;
