//! How a run negotiates.

use node_cost::Settings;

/// How a run negotiates: its runtime, the settings, the number of workers, the gate that is called,
/// and the files that it writes in addition to its routing.
#[derive(Clone, Copy)]
pub(crate) struct RunOptions<'a, T, G, S> {
    pub(crate) rt: &'a T,
    pub(crate) settings: &'a Settings,
    pub(crate) workers: u32,
    pub(crate) gate: &'a G,
    pub(crate) files: &'a S,
}
