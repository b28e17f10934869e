//! The commands of the program, over any sources and sinks: their runs, texts and statuses.
#![tactic(auto)]

mod bound;
mod check;
mod graph;
mod kept_trials;
mod known;
pub mod laws;
mod left_trees;
mod lesser_widths;
mod listed_types;
mod listing;
mod outcome;
mod plan;
mod route;
mod routing;
mod run_options;
mod search_plan;
mod side_files;
mod trials;
mod tried_widths;
mod untried;
mod upward_plan;
mod verdict;
mod whole_sink;
mod width;
mod width_report;

pub use check::{check_run, judge};
pub use graph::graph_run;
pub use outcome::outcome_status;
pub use plan::WidthPlan;
pub use route::route_run;
pub use side_files::{NoFiles, SideFiles};
pub use trials::report_status;
pub use verdict::{tree_fault_name, verdict_status};
pub use whole_sink::WholeSink;
pub use width::width_run;
