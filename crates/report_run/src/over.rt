//! How many overused wires run through each place of the channels.

ghost use Rattle.std.specs.Prelude.{◌≡◌, IfOk, if◌then◌else◌};
ghost use Rattle.route_report.specs.Overused.{is_over};
ghost use Rattle.report_run.specs.Map.{over_flags, overused_channels};

use route_report::{ChannelUse, channel_uses, is_over};
use rr_graph::Device;
use std::alloc::{AllocError, Global};

/// Returns 1 for a node that is overused by these uses, and otherwise 0.
fn over_flag(device: &Device, uses: &[u16], node: u32) -> u16
    ensures { result ≡ (if is_over device.now uses.now node then 1 else 0) }
{
    u16::from(is_over(device, uses, node))
}

/// Returns 1 for each node that is overused by these uses, and otherwise 0.
#[tactic(auto, using(crate::proofs::Flagging::flags_next), unfolding(crate::specs::Map::over_flags))]
fn over_flags(alloc: Global, device: &Device, uses: &[u16]) -> Result<Vec<u16>, AllocError>
    ensures { IfOk result (λ v. v.items ≡ over_flags device.now uses.now) }
{
    let mut flags = Vec::with_capacity(alloc, device.node_count() as usize)?;
    for node in 0..device.node_count() {
        flags.push(over_flag(device, uses, node))?;
    }
    Ok(flags)
}

/// Returns the channels with how many overused wires run through each of their places.
pub(crate) fn overused_channels(
    alloc: Global,
    device: &Device,
    uses: &[u16],
) -> Result<Vec<ChannelUse>, AllocError>
    ensures { IfOk result (λ v. v.items ≡ overused_channels device.now uses.now) }
{
    let flags = over_flags(alloc, device, uses)?;
    channel_uses(alloc, device, &flags)
}
