//! The calls of settings, costs, views, searches and congestion books, and of desks, iterations by
//! several workers, negotiations, searches of widths, and gates.
#![tactic(auto)]

pub mod book_calls;
pub mod book_look_ups;
pub mod desk_calls;
pub mod event_calls;
pub mod gate_calls;
pub mod iteration_calls;
pub mod repeated_calls;
pub mod search_calls;
pub mod settings_calls;
pub mod view_calls;
pub mod work_calls;
