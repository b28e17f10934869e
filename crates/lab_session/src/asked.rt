//! Devices and negotiations that calls ask for.

ghost use Rattle.std.specs.Prelude.{◌≤◌, IfOk};
ghost use Rattle.rr_graph.specs.Fabric.{most_tracks};

use crate::bounds::channel_width;
use crate::unanswered::Unanswered;
use crate::words::mode;
use node_cost::Settings;
use rr_graph::Mode;

/// A device that a call asks for, apart from its array: its channel width and its mode.
#[derive(Clone, Copy)]
pub struct AskedDevice {
    pub width: u32,
    pub mode: Mode,
}

/// Reads a device from its width and the words after it, which name its mode.
pub fn asked_device(width: &str, rest: &[&str]) -> Result<AskedDevice, Unanswered>
    ensures { IfOk result (λ asked. (1 ≤ asked.width) × (asked.width ≤ most_tracks)) }
{
    let width = channel_width(width)?;
    let mode = mode(rest)?;
    Ok(AskedDevice { width, mode })
}

/// Negotiations that a call asks for: the settings, the number of workers, the mode of the devices,
/// and the only or the first channel width.
#[derive(Clone, Copy)]
pub struct AskedRun<'a> {
    pub settings: &'a Settings,
    pub workers: u32,
    pub width: u32,
    pub mode: Mode,
}
