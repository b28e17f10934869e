//! The connections of each net.

ghost use Rattle.std.specs.Prelude.{◌≡◌, ℕ, ◌<◌, [], ◌∷◌, ◌++◌, IfOk, OnOk, length, slice_index_or};
ghost use Rattle.net_file.specs.Connections.{connections_at, connections, by_net};
ghost use Rattle.net_file.specs.kept.Rows.{Files, FilesAll};

use crate::block::Block;
use crate::connection::{Connection, connections_of};
use arch_file::Pin;
use std::alloc::{AllocError, Global};
use std::marker::Model;

/// The connections of one net, in the order of the blocks and their pins.
#[derive(Drop)]
pub(crate) struct NetRow {
    connections: Vec<Connection>,
}

impl Model for NetRow {
    ghost use Rattle.std.specs.Prelude.{List};
    ghost use Rattle.net_file.specs.declared.connection.Connection.{Connection};

    ghost Value = { List Connection };

    ghost view = { λ r. r.connections.items };
}

impl NetRow {
    /// No connections.
    fn new(alloc: Global) -> NetRow
        ensures { result ≡ [] }
    {
        NetRow {
            connections: Vec::new(alloc),
        }
    }

    fn add(&mut self, connection: Connection) -> Result<(), AllocError>
        ensures { OnOk result (self.new ≡ self.old ++ connection ∷ []) }
    {
        self.connections.push(connection)?;
        Ok(())
    }

    pub(crate) fn connections(&self) -> &[Connection]
        ensures { result.now ≡ self.now }
    {
        self.connections.as_slice()
    }
}

/// The connections of net `n`; none past the last net.
pub(crate) fn row_of(rows: &[NetRow], n: usize) -> &[Connection]
    ensures { result.now ≡ slice_index_or rows.now n [] }
{
    match rows.get(n) {
        Some(row) => row.connections(),
        None => &[],
    }
}

/// Rows without a connection.
fn empty_rows(alloc: Global, count: usize) -> Result<Vec<NetRow>, AllocError>
    ensures count { IfOk result (λ v. length v.items ≡ count) }
    ensures empty { IfOk result (λ v. (n : ℕ) → slice_index_or v.items n [] ≡ []) }
{
    let mut rows = Vec::new(alloc);
    for _ in 0..count {
        rows.push(NetRow::new(alloc))?;
    }
    Ok(rows)
}

/// Adds a connection to the row of its net, if there is one.
fn file(rows: &mut [NetRow], connection: Connection) -> Result<(), AllocError>
    ensures { OnOk result (Files rows.old rows.new connection) }
{
    if connection.net < rows.len() {
        rows[connection.net].add(connection)?;
    }
    Ok(())
}

/// Adds the connections, each to the row of its net.
fn file_all(rows: &mut [NetRow], connections: &[Connection]) -> Result<(), AllocError>
    ensures { OnOk result (FilesAll rows.old rows.new connections.now) }
{
    for connection in connections {
        file(rows, *connection)?;
    }
    Ok(())
}

/// The connections of block number `b`; the lines of the pinlists have these numbers.
fn connections_at(
    alloc: Global,
    pins: &[Pin],
    numbers: &[u32],
    blocks: &[Block],
    b: usize,
) -> Result<Vec<Connection>, AllocError>
    requires { b < length blocks.now }
    ensures { IfOk result (λ v. v.items ≡ connections_at pins.now numbers.now blocks.now b) }
{
    let number = match numbers.get(b) {
        Some(number) => *number,
        None => 0,
    };
    connections_of(alloc, pins, number, b, &blocks[b])
}

/// The connections of each net, for this many nets.
pub(crate) fn by_net(
    alloc: Global,
    pins: &[Pin],
    numbers: &[u32],
    blocks: &[Block],
    count: usize,
) -> Result<Vec<NetRow>, AllocError>
    ensures { IfOk result (λ v. v.items ≡ by_net
        (connections pins.now numbers.now blocks.now) count) }
{
    let mut rows = empty_rows(alloc, count)?;
    for b in 0..blocks.len() {
        let connections = connections_at(alloc, pins, numbers, blocks, b)?;
        file_all(&mut rows, &connections)?;
    }
    Ok(rows)
}
