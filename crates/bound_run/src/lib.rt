//! The `bound` command over any sources and sinks. It shows by a cut of the array below which width
//! a placed design has no routing.
#![tactic(auto)]

mod bound;
mod certificate;
mod lines;
mod pins;
mod places;
mod region;
mod run;

pub use bound::find_bound;
pub use certificate::put_width_text;
pub use lines::{has_no_way, printed_width, put_width_line};
pub use run::bound_run;
