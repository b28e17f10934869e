//! The `report` command over any sources and sink: the figures of a routing, legal or not, as text.
#![tactic(auto)]

mod channels;
mod device;
mod figures;
mod form;
mod json_channels;
mod json_figures;
mod json_map;
mod json_overused;
mod json_parts;
mod json_text;
pub mod laws;
mod map;
mod named;
mod net_lines;
mod over;
mod overused;
mod report;
mod run;
mod text;
mod wire_types;

pub use form::ReportForm;
pub use named::overused_on;
pub use overused::put_overused;
pub use run::report_run;
pub use text::put_name;
