//! What the lines of a netlist must satisfy together, net by net.

ghost use Rattle.std.specs.Prelude.{◌≡◌};
ghost use Rattle.std.specs.List.{list_any};
ghost use Rattle.net_file.specs.WholeFile.{driver_count, has_sink, is_routed, has_double_sink, has_global_pin, line_of, net_fault, fault_at, whole_fault};

use crate::connection::Connection;
use crate::fault::NetFault;
use crate::names::Names;
use crate::net::is_global_net;
use crate::rows::{NetRow, row_of};

/// How many pins drive the net.
fn driver_count(row: &[Connection]) -> usize
    ensures { result ≡ driver_count row.now }
{
    row.iter().filter(|connection| connection.drives).count()
}

/// Whether a pin takes the net's signal.
fn has_sink(row: &[Connection]) -> bool
    ensures { result ≡ has_sink row.now }
{
    row.iter().any(|connection| !connection.drives)
}

/// Whether the net isn't global and has a sink.
fn is_routed(global: bool, row: &[Connection]) -> bool
    ensures { result ≡ is_routed global row.now }
{
    !global && has_sink(row)
}

/// Whether two pins of one input class of a block are on the net.
fn has_double_sink(row: &[Connection]) -> bool
    ensures { result ≡ has_double_sink row.now }
{
    row.iter()
        .any(|connection| !connection.drives && connection.repeated)
}

/// Whether a pin marked `global` is on the net.
fn has_global_pin(row: &[Connection]) -> bool
    ensures { result ≡ has_global_pin row.now }
{
    row.iter().any(|connection| connection.marked)
}

/// The line of the net's first pinlist.
fn line_of(row: &[Connection]) -> u32
    ensures { result ≡ line_of row.now }
{
    match row.first() {
        Some(connection) => connection.line,
        None => 0,
    }
}

/// The first fault that a net with these connections has.
#[tactic(auto, unfolding(crate::specs::WholeFile::net_fault))]
fn net_fault(global: bool, row: &[Connection]) -> Option<NetFault>
    ensures { result ≡ net_fault global row.now }
{
    let drivers = driver_count(row);
    if drivers == 0 {
        return Some(NetFault::NoDriver(line_of(row)));
    }
    if drivers > 1 {
        return Some(NetFault::TwoDrivers(line_of(row)));
    }
    if is_routed(global, row) && has_double_sink(row) {
        return Some(NetFault::DoubleSink(line_of(row)));
    }
    if is_routed(global, row) && has_global_pin(row) {
        return Some(NetFault::GlobalPin(line_of(row)));
    }
    None
}

/// The first fault of net `n`.
fn fault_at<'a>(
    nets: &Names<'a>,
    globals: &Names<'a>,
    rows: &[NetRow],
    n: usize,
) -> Option<NetFault>
    ensures { result ≡ fault_at nets.now globals.now rows.now n }
{
    net_fault(is_global_net(nets, globals, n), row_of(rows, n))
}

/// The first fault of the least faulty net.
#[tactic(auto, using(crate::proofs::Ranges::fold_next), unfolding(crate::specs::WholeFile::whole_fault))]
pub(crate) fn whole_fault<'a>(
    nets: &Names<'a>,
    globals: &Names<'a>,
    rows: &[NetRow],
) -> Option<NetFault>
    ensures { result ≡ whole_fault nets.now globals.now rows.now }
{
    let mut found = None;
    for n in 0..nets.len() {
        found = found.or(fault_at(nets, globals, rows, n));
    }
    found
}
