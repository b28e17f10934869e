//! How the widths of a placed netlist are tried.

use crate::run_options::RunOptions;
use rr_graph::Mode;
use run_inputs::PlacedNetlist;

/// A placed netlist, the mode of its devices, and how each of its widths is negotiated.
#[derive(Clone, Copy)]
pub(crate) struct Widths<'p, 't, 'o, T, G, S> {
    pub(crate) placed: &'p PlacedNetlist<'t>,
    pub(crate) mode: Mode,
    pub(crate) run: RunOptions<'o, T, G, S>,
}
