//! A lower bound of the channel width.
#![tactic(auto)]

mod border;
mod cut;
mod design;
mod figures;
pub mod laws;
mod marks;
mod nets;
mod sides;
mod terminals;

pub use cut::Cut;
pub use design::design_figures;
pub use figures::{CutFigures, cut_figures};
