//! How full the channels are.

ghost use Rattle.std.specs.Prelude.{◌≡◌, ◌++◌, ◌≤◌, ◌<◌, ◌^◌, ℕ, [], All, IfOk, OnOk, length, get_or};
ghost use Rattle.routing_problem.specs.Fabric.{IsFabric};
ghost use Rattle.route_report.specs.Channels.{channel_with, channels_along, channels_of};
ghost use Rattle.route_report.specs.kept.Channels.{AreSmall, numbered};

use crate::occupancy::{Places, occupancies};
use crate::wirelength::{greatest, total};
use routing_problem::{Device, Kind};
use std::alloc::{AllocError, Global};
use std::marker::Model;

/// A channel: above a row, or right of a column. Contracts see the list of what
/// is occupied.
#[derive(Debug, Drop)]
pub struct ChannelUse {
    /// Chanx above a row, Chany right of a column.
    pub kind: Kind,
    /// The row or the column; from 0 on.
    pub number: u32,
    /// How many tracks are occupied at each place; of a global channel, how many nets use its node.
    pub occupied: Vec<u64>,
    /// The greatest of these numbers.
    pub most: u64,
    /// Their sum.
    pub total: u64,
}

impl Model for ChannelUse {
    ghost use Rattle.route_report.specs.Channels.{Channel};

    ghost Value = { Channel };

    ghost use Rattle.route_report.specs.kept.Channels.{channel_inside};

    ghost view = { channel_inside };
}

/// A channel with the occupancy of its places.
fn channel_with(
    alloc: Global,
    kind: Kind,
    number: u32,
    occupied: &[u64],
) -> Result<ChannelUse, AllocError>
    requires few { length occupied.now ≤ 65535 }
    requires small { All (λ n. n ≤ 2 ^ 40) occupied.now }
    ensures { IfOk result (λ c. c ≡ channel_with kind number occupied.now) }
{
    Ok(ChannelUse {
        kind,
        number,
        occupied: Vec::from_slice(alloc, occupied)?,
        most: greatest(occupied),
        total: total(occupied),
    })
}

/// A channel of these, by its number.
#[tactic(auto, using(crate::proofs::Occupying::few_places, crate::proofs::Occupying::small_places))]
fn channel_at(
    alloc: Global,
    kind: Kind,
    channels: &[Places],
    number: u32,
) -> Result<ChannelUse, AllocError>
    requires there { number < length channels.now }
    requires small { AreSmall channels.now }
    ensures { IfOk result (λ c. c ≡ channel_with kind number (get_or channels.now number [])) }
{
    channel_with(alloc, kind, number, channels[number as usize].occupied())
}

/// Pushes this many channels of a kind, by number.
#[tactic(auto, using(crate::proofs::Occupying::none_numbered, crate::proofs::Occupying::numbered_more))]
fn push_channels(
    alloc: Global,
    kind: Kind,
    channels: &[Places],
    count: u32,
    list: &mut Vec<ChannelUse>,
) -> Result<(), AllocError>
    requires count { length channels.now ≡ count }
    requires small { AreSmall channels.now }
    ensures { OnOk result (list.new.items ≡ list.old.items ++ numbered kind channels.now count) }
{
    for number in 0..count {
        list.push(channel_at(alloc, kind, channels, number)?)?;
    }
    Ok(())
}

/// The channels of a kind: how many there are, and how many places each has.
#[derive(Clone, Copy)]
struct ParallelChannels {
    kind: Kind,
    places: u32,
    count: u32,
}

/// Adds the channels of a kind to a list.
fn push_channels_along(
    alloc: Global,
    device: &Device,
    uses: &[u16],
    along: ParallelChannels,
    list: &mut Vec<ChannelUse>,
) -> Result<(), AllocError>
    requires limits { IsFabric device.now }
    requires few { along.places ≤ 65535 }
    ensures { OnOk result (list.new.items ≡ list.old.items
        ++ channels_along device.now uses.now along.kind along.places along.count) }
{
    let ParallelChannels {
        kind,
        places,
        count,
    } = along;
    let channels = occupancies(alloc, device, uses, kind, places, count)?;
    push_channels(alloc, kind, &channels, count, list)?;
    Ok(())
}

/// How full the channels are: those above the rows, from row 0 on, and then those right of the
/// columns; `uses` is what `node_uses` gave of a routing.
#[tactic(auto, unfolding(crate::specs::Channels::channels_of))]
pub fn channel_uses(
    alloc: Global,
    device: &Device,
    uses: &[u16],
) -> Result<Vec<ChannelUse>, AllocError>
    ensures { IfOk result (λ v. v.items ≡ channels_of device.now uses.now) }
{
    let (columns, rows) = (device.nx(), device.ny());
    let mut list = Vec::new(alloc);
    let above_rows = ParallelChannels {
        kind: Kind::Chanx,
        places: columns,
        count: rows + 1,
    };
    let beside_columns = ParallelChannels {
        kind: Kind::Chany,
        places: rows,
        count: columns + 1,
    };
    push_channels_along(alloc, device, uses, above_rows, &mut list)?;
    push_channels_along(alloc, device, uses, beside_columns, &mut list)?;
    Ok(list)
}
