//! Gates that report while a run goes on: the log of a negotiation, and its progress on a terminal.
#![tactic(auto)]

mod log;
mod log_sink;
mod log_text;
mod progress;
mod run_files;
mod trial_text;

pub use log::Log;
pub use log_sink::LogHead;
pub use progress::Progress;
pub use run_files::RunFiles;
