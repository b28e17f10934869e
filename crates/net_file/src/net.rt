//! A net of a netlist.

ghost use Rattle.std.specs.Prelude.{◌≡◌, [], IfOk, map, filter, find, length, slice_index_or, unwrap_or};
ghost use Rattle.std.specs.Option.{option_map};
ghost use Rattle.net_file.specs.Connections.{is_sink};
ghost use Rattle.net_file.specs.Reading.{driver_of, sinks_of, net_from, net_at, nets_of};
ghost use Rattle.net_file.specs.WholeFile.{is_global_net};

use crate::connection::Connection;
use crate::names::Names;
use crate::rows::{NetRow, row_of};
use crate::terminal::Terminal;
use std::alloc::{AllocError, Global};
use std::marker::Model;

/// A net: its name, what drives it, and what takes its signal.
#[derive(Drop)]
pub struct Net<'a> {
    name: &'a [u8],
    global: bool,
    driver: Terminal,
    sinks: Vec<Terminal>,
}

impl<'a> Model for Net<'a> {
    ghost use Rattle.net_file.specs.Netlist as netlist;

    ghost Value = { netlist.Net };

    ghost view = { λ n. record {
      name = n.name.now;
      global = n.global;
      driver = n.driver;
      sinks =
          n.sinks.items;
    } };
}

impl<'a> Net<'a> {
    /// The bytes of the name.
    pub fn name(&self) -> &'a [u8]
        ensures { result.now ≡ self.now.name }
    {
        self.name
    }

    /// Whether a dedicated network carries the net, so that it isn't routed.
    pub fn is_global(&self) -> bool
        ensures { result ≡ self.now.global }
    {
        self.global
    }

    /// The pin that drives the net.
    pub fn driver(&self) -> Terminal
        ensures { result ≡ self.now.driver }
    {
        self.driver
    }

    /// The pins that take the net's signal, in the order of the blocks and their pins.
    pub fn sinks(&self) -> &[Terminal]
        ensures { result.now ≡ self.now.sinks }
    {
        self.sinks.as_slice()
    }
}

/// The first of the pins that drives the net.
fn driver_of(row: &[Connection]) -> Terminal
    ensures { result ≡ driver_of row.now }
{
    row.iter()
        .find(|connection| connection.drives)
        .map(|connection| connection.terminal)
        .unwrap_or(Terminal {
            block: 0,
            class: None,
        })
}

/// The pins that take the net's signal.
fn sinks_of(alloc: Global, row: &[Connection]) -> Result<Vec<Terminal>, AllocError>
    ensures { IfOk result (λ v. v.items ≡ sinks_of row.now) }
{
    row.iter()
        .filter(|connection| !connection.drives)
        .map(|connection| connection.terminal)
        .collect(alloc)
}

/// The net with this name and these connections.
#[tactic(auto, unfolding(crate::specs::Reading::net_from))]
fn net_from<'a>(
    alloc: Global,
    name: &'a [u8],
    global: bool,
    row: &[Connection],
) -> Result<Net<'a>, AllocError>
    ensures { IfOk result (λ n. n ≡ net_from name.now global row.now) }
{
    let sinks = sinks_of(alloc, row)?;
    Ok(Net {
        name,
        global,
        driver: driver_of(row),
        sinks,
    })
}

/// Whether net `n` is global.
pub(crate) fn is_global_net<'a>(nets: &Names<'a>, globals: &Names<'a>, n: usize) -> bool
    ensures { result ≡ is_global_net nets.now globals.now n }
{
    globals.has(nets.name(n))
}

/// Net number `n`.
#[tactic(auto, unfolding(crate::specs::Reading::net_at))]
fn net_at<'a>(
    alloc: Global,
    nets: &Names<'a>,
    globals: &Names<'a>,
    rows: &[NetRow],
    n: usize,
) -> Result<Net<'a>, AllocError>
    ensures { IfOk result (λ net. net ≡ net_at nets.now globals.now rows.now n) }
{
    let global = is_global_net(nets, globals, n);
    let net = net_from(alloc, nets.name(n), global, row_of(rows, n))?;
    Ok(net)
}

/// The nets with these names and connections.
#[tactic(auto, using(crate::proofs::Ranges::map_next), unfolding(crate::specs::Reading::nets_of))]
pub(crate) fn nets_of<'a>(
    alloc: Global,
    nets: &Names<'a>,
    globals: &Names<'a>,
    rows: &[NetRow],
) -> Result<Vec<Net<'a>>, AllocError>
    ensures { IfOk result (λ v. v.items ≡ nets_of nets.now globals.now rows.now) }
{
    let mut list = Vec::new(alloc);
    for n in 0..nets.len() {
        let net = net_at(alloc, nets, globals, rows, n)?;
        list.push(net)?;
    }
    Ok(list)
}
