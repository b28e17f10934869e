//! The `graph` command over any source and sink.

ghost use Rattle.std.specs.Prelude.{◌≡◌, ◌≢◌, ◌≤◌, Err};
ghost use Rattle.place_file.specs.Placement.{longest_side};
ghost use Rattle.run_inputs.specs.Inputs.{arch_in};
ghost use Rattle.runs.specs.Listing.{listing_of};
ghost use Rattle.run_inputs.specs.Runs.{Meets, PrintsText, TakesNothing, reading, writing_to};
ghost use Rattle.rr_graph.specs.Fabric.{fabric_with, most_tracks};
ghost use Rattle.runs.specs.GraphRun.{RunsGraph};

use crate::listing::{make_room, put_listing};
use rr_graph::{Device, Mode};
use run_inputs::{AppFault, read_arch};
use smallvec::SmallVec;
use std::alloc::Global;
use text_output::{ByteSink, Printer};
use vpr_text::ByteSource;

/// Prints the listing of a device. Nothing is printed if memory runs out.
fn print_listing<W: ByteSink>(
    alloc: Global,
    device: &Device,
    out: &mut W,
    is_typed: bool,
) -> Result<(), AppFault>
    ensures memory { result ≡ Err AppFault.Memory
        → TakesNothing (writing_to W.taken W.failed out.old out.new) }
    ensures printed { result ≢ Err AppFault.Memory
        → PrintsText (writing_to W.taken W.failed out.old out.new)
        (listing_of is_typed device.now) tt result }
{
    let mut list: SmallVec<u32, 8> = SmallVec::new(alloc);
    make_room(device, &mut list)?;
    let mut printer = Printer::new(out);
    put_listing(&mut printer, device, &mut list, is_typed);
    match printer.finish() {
        Ok(()) => Ok(()),
        Err(_) => Err(AppFault::Unwritten),
    }
}

/// Reads an architecture, and prints the nodes and edges of a device of it. If that is asked for,
/// each wire has its type, and each edge into a wire its switch.
///
/// # Errors
/// Each fault exactly when it comes first; only `Memory` is unspecified. First comes `Unread`, if
/// the source failed, then `Arch` with the fault of the bytes, then `Unwritten`, if the sink
/// failed. In that case the sink received a front of the listing. After any other fault it received
/// nothing.
pub fn graph_run<S: ByteSource, W: ByteSink>(
    alloc: Global,
    arch: &mut S,
    nx: u32,
    ny: u32,
    width: u32,
    mode: Mode,
    out: &mut W,
    is_typed: bool,
) -> Result<(), AppFault>
    requires columns { (1 ≤ nx) × (nx ≤ longest_side) }
    requires rows { (1 ≤ ny) × (ny ≤ longest_side) }
    requires tracks { (1 ≤ width) × (width ≤ most_tracks) }
    // The file decides. If it gives an architecture, the listing of its device is printed.
    ensures runs { result ≢ Err AppFault.Memory
        → Meets (reading (S.remaining arch.old) (S.failed arch.new))
        (λ a. RunsGraph is_typed (writing_to W.taken W.failed out.old out.new)
        (fabric_with nx ny width mode) (arch_in a) result) }
    // Nothing is written if memory runs out.
    ensures memory { result ≡ Err AppFault.Memory
        → TakesNothing (writing_to W.taken W.failed out.old out.new) }
{
    let arch = read_arch(alloc, arch)?;
    let device = Device::with_mode(alloc, &arch, nx, ny, width, mode)?;
    print_listing(alloc, &device, out, is_typed)
}
