//! The figures of a routing, legal or not: what is used, how long nets are, how full channels are,
//! and what is overused.
#![tactic(auto)]

mod bends;
mod channels;
mod covered;
mod each_net;
mod figures;
pub mod laws;
mod occupancy;
mod overused;
mod uses;
mod wire_types;
mod wirelength;

pub use channels::{ChannelUse, channel_uses};
pub use each_net::{NetFigures, NetTotals, net_figures};
pub use figures::{Figures, figures_of};
pub use overused::{OverusedNode, is_over, overused_nodes};
pub use uses::node_uses;
pub use wire_types::{WireTypeUse, wire_type_uses};
pub use wirelength::{places_at, wirelengths};
