//! The input files of a run: their bytes, and their contents.

ghost use Rattle.std.specs.Prelude.{◌≡◌, false, length, map, IfOk};
ghost use Rattle.net_file.specs.Reads.{ReadsBytes};
ghost use Rattle.net_file.specs.Routed.{routed_numbers};
ghost use Rattle.place_file.specs.Placement.{IsPlaced};
ghost use Rattle.run_inputs.specs.Runs.{Meets, bytes_in, reading};
ghost use Rattle.vpr_text.specs.Readings.{Gives};
ghost use Rattle.run_inputs.specs.declared.fault.AppFault.TheVariants.{Memory};
ghost use Rattle.run_inputs.specs.Inputs.{arch_from, arch_in, ends_before, netlist_from, placement_from, placement_in, routing_from, routing_in};

use crate::fault::{AppFault, InputFile};
use arch_file::Arch;
use net_file::Netlist;
use place_file::Placement;
use route_tree::Routing;
use rr_graph::Problem;
use std::alloc::Global;
use vpr_text::{ByteSource, ReadFault, read_all};

/// Reads the bytes of an input file.
pub fn read_input<S: ByteSource>(
    alloc: Global,
    source: &mut S,
    file: InputFile,
) -> Result<Vec<u8>, AppFault>
    ensures read { Meets (reading (S.remaining source.old) (S.failed source.new))
        (λ input. Gives Memory (λ v. v.items) result (bytes_in file input)) }
    ensures turn { ends_before file result ≡ false }
{
    match read_all(alloc, source) {
        Ok(bytes) => Ok(bytes),
        Err(ReadFault::Failed) => Err(AppFault::Unread(file)),
        Err(ReadFault::Memory) => Err(AppFault::Memory),
    }
}

/// Reads an architecture from its bytes.
fn parse_arch(alloc: Global, bytes: &[u8]) -> Result<Arch, AppFault>
    ensures { Gives Memory (λ a. a) result (arch_from bytes.now) }
{
    match arch_file::parse(alloc, bytes) {
        Ok(arch) => Ok(arch),
        Err(fault) => Err(AppFault::from(fault)),
    }
}

/// Reads a netlist from its bytes, for the pins of an architecture.
pub fn parse_netlist<'a>(
    alloc: Global,
    bytes: &'a [u8],
    arch: &Arch,
) -> Result<Netlist<'a>, AppFault>
    ensures given { Gives Memory (λ n. n) result (netlist_from arch.now bytes.now) }
    ensures read { IfOk result (λ n. ReadsBytes arch.now.pins bytes.now n) }
    ensures turn { ends_before InputFile.Net result ≡ false }
{
    match net_file::parse(alloc, bytes, arch) {
        Ok(netlist) => Ok(netlist),
        Err(fault) => Err(AppFault::from(fault)),
    }
}

/// Reads the placement of a netlist's blocks from its bytes.
pub fn parse_placement(
    alloc: Global,
    bytes: &[u8],
    arch: &Arch,
    netlist: &Netlist<'_>,
) -> Result<Placement, AppFault>
    ensures given { Gives Memory (λ p. p) result (placement_from arch.now netlist.now bytes.now) }
    ensures placed { IfOk result (λ p. IsPlaced arch.now.io_rat netlist.now.blocks p) }
    ensures turn { ends_before InputFile.Place result ≡ false }
{
    match place_file::parse(alloc, bytes, arch, netlist) {
        Ok(placement) => Ok(placement),
        Err(fault) => Err(AppFault::from(fault)),
    }
}

/// Reads a routing from its bytes, for the routed nets of a netlist.
pub fn parse_routing(
    alloc: Global,
    bytes: &[u8],
    netlist: &Netlist<'_>,
    problem: &Problem,
) -> Result<Routing, AppFault>
    requires { map (λ n. n.number) problem.now.nets ≡ routed_numbers netlist.now }
    ensures given { Gives Memory (λ r. r) result (routing_from netlist.now problem.now bytes.now) }
    ensures fits { IfOk result (λ r. length r ≡ length problem.now.nets) }
    ensures turn { ends_before InputFile.Route result ≡ false }
{
    match route_file::parse(alloc, bytes, netlist, problem) {
        Ok(routing) => Ok(routing),
        Err(fault) => Err(AppFault::from(fault)),
    }
}

/// Reads an architecture from a source.
pub fn read_arch<S: ByteSource>(alloc: Global, source: &mut S) -> Result<Arch, AppFault>
    ensures { Meets (reading (S.remaining source.old) (S.failed source.new))
        (λ input. Gives Memory (λ a. a) result (arch_in input)) }
{
    let bytes = read_input(alloc, source, InputFile::Arch)?;
    parse_arch(alloc, &bytes)
}

/// Reads the placement of a netlist's blocks from a source.
pub fn read_placement<S: ByteSource>(
    alloc: Global,
    source: &mut S,
    arch: &Arch,
    netlist: &Netlist<'_>,
) -> Result<Placement, AppFault>
    ensures given { Meets (reading (S.remaining source.old) (S.failed source.new))
        (λ input. Gives Memory (λ p. p) result (placement_in arch.now netlist.now input)) }
    ensures placed { IfOk result (λ p. IsPlaced arch.now.io_rat netlist.now.blocks p) }
    ensures turn { ends_before InputFile.Place result ≡ false }
{
    let bytes = read_input(alloc, source, InputFile::Place)?;
    parse_placement(alloc, &bytes, arch, netlist)
}

/// Reads a routing from a source, for the routed nets of a netlist.
pub fn read_routing<S: ByteSource>(
    alloc: Global,
    source: &mut S,
    netlist: &Netlist<'_>,
    problem: &Problem,
) -> Result<Routing, AppFault>
    requires { map (λ n. n.number) problem.now.nets ≡ routed_numbers netlist.now }
    ensures given { Meets (reading (S.remaining source.old) (S.failed source.new))
        (λ input. Gives Memory (λ r. r) result (routing_in netlist.now problem.now input)) }
    ensures fits { IfOk result (λ r. length r ≡ length problem.now.nets) }
    ensures turn { ends_before InputFile.Route result ≡ false }
{
    let bytes = read_input(alloc, source, InputFile::Route)?;
    parse_routing(alloc, &bytes, netlist, problem)
}
