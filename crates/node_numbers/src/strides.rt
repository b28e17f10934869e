//! The divisors that find wires by their numbers. They are made once.

ghost use Rattle.std.specs.Prelude.{◌≡◌, ◌+◌, ◌≤◌, map, max, IfOk};
ghost use Rattle.channel_tables.specs.Fabric.{numbers_below};
ghost use Rattle.node_numbers.specs.kept.Strides.{stride_at, AreStrides};

use crate::divisor::Divisor;
use channel_tables::ChannelTables;
use std::alloc::{AllocError, Global};

/// The divisors that find wires by their numbers.
#[derive(Debug, Drop)]
pub(crate) struct Strides {
    /// The count of rows of channels.
    pub(crate) rows: Divisor,
    /// How many wires a channel right of a column has, at least 1.
    pub(crate) column: Divisor,
    /// For each place, how many wires of a channel above a row begin there, at least 1.
    pub(crate) places: Vec<Divisor>,
}

/// Makes the divisor of a count, or of 1 if the count is 0.
fn divisor_of(count: u32) -> Divisor
    requires { count ≤ 65536 }
    ensures { result ≡ max count 1 }
{
    Divisor::new(count.max(1))
}

/// Makes the divisor of a place of a channel above a row.
fn place_stride(tables: &ChannelTables, place: u32) -> Divisor
    requires { place ≤ tables.now.nx }
    ensures { result ≡ stride_at tables.now place }
{
    divisor_of(tables.above_step(place))
}

/// Makes the divisor of each place of a channel above a row.
#[tactic(auto, using(channel_tables::proofs::Ranges::mapped_next))]
fn place_strides(alloc: Global, tables: &ChannelTables) -> Result<Vec<Divisor>, AllocError>
    ensures { IfOk result (λ v. v.items ≡ map (stride_at tables.now)
        (numbers_below (tables.now.nx + 1))) }
{
    let nx = tables.layout().nx();
    let mut strides = Vec::with_capacity(alloc, nx as usize + 1)?;
    for place in 0..nx + 1 {
        strides.push(place_stride(tables, place))?;
    }
    Ok(strides)
}

/// Makes the divisors of a device with these channels.
pub(crate) fn strides_of(alloc: Global, tables: &ChannelTables) -> Result<Strides, AllocError>
    ensures { IfOk result (AreStrides tables.now) }
{
    let ny = tables.layout().ny();
    Ok(Strides {
        rows: Divisor::new(ny + 1),
        column: divisor_of(tables.right_step()),
        places: place_strides(alloc, tables)?,
    })
}
