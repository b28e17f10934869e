//! Calls of `net_file` and `place_file`: netlists and placements.

use arch_file::Arch;
use lab_session::answer::{added, put, put_maybe, put_name, put_numbers};
use lab_session::designs::are_suited;
use lab_session::session::{Design, DesignTexts, NO_DEVICE, NO_NETLIST};
use lab_session::sources::source;
use lab_session::unanswered::Unanswered;
use lab_session::words::{Call, NO_WORDS, numbers, one};
use net_file::{Block, Net, Netlist, Terminal};
use place_file::Site;
use rr_graph::Device;
use std::alloc::Global;
use std::rt::Runtime;

/// Makes a call, and adds its answer.
pub fn call(
    rt: &(impl Runtime + AllocGlobal),
    design: &mut Design,
    call: Call<'_>,
    out: &mut String,
) -> Result<(), Unanswered> {
    match call.name {
        "net" => read_netlist(rt, design, call, out),
        "place" => read_placement(rt, design, call, out),
        "site" => put_site_of(rt.alloc(), design, call.given, out),
        "block_named" | "net_named" | "block" | "block_net" | "blocks" | "net_at" | "netlist" => {
            look_into(rt.alloc(), design, call, out)
        }
        _ => Err(Unanswered::NoCall),
    }
}

/// Reads the netlist again, and makes a look-up of it.
fn look_into(
    alloc: Global,
    design: &Design,
    call: Call<'_>,
    out: &mut String,
) -> Result<(), Unanswered> {
    let Some(text) = &design.net else {
        return Err(NO_NETLIST);
    };
    let netlist = net_file::parse(alloc, text.as_slice(), design.arch()?)?;
    look_up(&netlist, call, out)
}

/// Reads a netlist. Drops the placement that was read for the one before.
fn read_netlist(
    rt: &(impl Runtime + AllocGlobal),
    design: &mut Design,
    call: Call<'_>,
    out: &mut String,
) -> Result<(), Unanswered> {
    let arch = design.arch()?;
    let text = source(rt, call)?;
    put_counts(rt.alloc(), arch, text.as_slice(), out)?;
    design.net = Some(text);
    design.place = None;
    Ok(())
}

/// Adds the numbers of blocks and nets of a netlist.
fn put_counts(alloc: Global, arch: &Arch, text: &[u8], out: &mut String) -> Result<(), Unanswered> {
    let netlist = net_file::parse(alloc, text, arch)?;
    put_counts_of(&netlist, out)
}

fn put_counts_of(netlist: &Netlist<'_>, out: &mut String) -> Result<(), Unanswered> {
    let (blocks, nets) = (netlist.blocks().len(), netlist.nets().len());
    added(writeln!(out, "{blocks} blocks, {nets} nets"))
}

/// Reads a placement.
fn read_placement(
    rt: &(impl Runtime + AllocGlobal),
    design: &mut Design,
    call: Call<'_>,
    out: &mut String,
) -> Result<(), Unanswered> {
    let arch = design.arch()?;
    let Some(net) = &design.net else {
        return Err(NO_NETLIST);
    };
    let (net, text) = (net.as_slice(), source(rt, call)?);
    let place = text.as_slice();
    put_array(rt.alloc(), DesignTexts { arch, net, place }, out)?;
    design.place = Some(text);
    Ok(())
}

/// Adds the array of a design.
fn put_array(alloc: Global, design: DesignTexts<'_>, out: &mut String) -> Result<(), Unanswered> {
    let netlist = net_file::parse(alloc, design.net, design.arch)?;
    put_array_for(alloc, design, &netlist, out)
}

/// Adds the array of a design with this netlist.
fn put_array_for(
    alloc: Global,
    design: DesignTexts<'_>,
    netlist: &Netlist<'_>,
    out: &mut String,
) -> Result<(), Unanswered> {
    let placement = place_file::parse(alloc, design.place, design.arch, netlist)?;
    added(writeln!(out, "{} x {}", placement.nx(), placement.ny()))
}

/// Adds the site of a block.
fn put_site_of(
    alloc: Global,
    design: &Design,
    given: &[&str],
    out: &mut String,
) -> Result<(), Unanswered> {
    let [block] = numbers::<1>(given)?;
    let design = design.texts()?;
    let netlist = net_file::parse(alloc, design.net, design.arch)?;
    put_site_for(alloc, design, &netlist, block as usize, out)
}

/// Adds the site of a block of a design with this netlist.
fn put_site_for(
    alloc: Global,
    design: DesignTexts<'_>,
    netlist: &Netlist<'_>,
    block: usize,
    out: &mut String,
) -> Result<(), Unanswered> {
    let placement = place_file::parse(alloc, design.place, design.arch, netlist)?;
    put_site(placement.site(block), out)
}

fn put_site(site: Option<Site>, out: &mut String) -> Result<(), Unanswered> {
    match site {
        Some(Site { x, y, subblk }) => put_numbers(out, &[x, y, subblk]),
        None => put(out, "none"),
    }
}

/// Makes a look-up of a netlist.
fn look_up(netlist: &Netlist<'_>, call: Call<'_>, out: &mut String) -> Result<(), Unanswered> {
    match call.name {
        "block_named" => put_maybe(out, netlist.block_named(one(call.given)?.as_bytes())),
        "net_named" => put_maybe(out, netlist.net_named(one(call.given)?.as_bytes())),
        "block" => put_block_at(netlist, call.given, out),
        "block_net" => put_block_net(netlist, call.given, out),
        "net_at" => put_net_at(netlist, call.given, out),
        "blocks" => put_blocks(netlist, call.given, out),
        _ => put_nets(netlist, call.given, out),
    }
}

fn put_block_at(netlist: &Netlist<'_>, given: &[&str], out: &mut String) -> Result<(), Unanswered> {
    let [block] = numbers::<1>(given)?;
    match netlist.blocks().get(block as usize) {
        Some(block) => put_block(block, out),
        None => put(out, "none"),
    }
}

/// Adds the net of a block's pin.
fn put_block_net(
    netlist: &Netlist<'_>,
    given: &[&str],
    out: &mut String,
) -> Result<(), Unanswered> {
    let [block, pin] = numbers::<2>(given)?;
    match netlist.blocks().get(block as usize) {
        Some(block) => put_maybe(out, block.net(pin as usize)),
        None => put(out, "none"),
    }
}

fn put_net_at(netlist: &Netlist<'_>, given: &[&str], out: &mut String) -> Result<(), Unanswered> {
    let [net] = numbers::<1>(given)?;
    match netlist.nets().get(net as usize) {
        Some(net) => put_net(net, out),
        None => put(out, "none"),
    }
}

/// Adds a line for each block.
fn put_blocks(netlist: &Netlist<'_>, given: &[&str], out: &mut String) -> Result<(), Unanswered> {
    if !given.is_empty() {
        return Err(NO_WORDS);
    }
    for block in netlist.blocks() {
        put_block(block, out)?;
    }
    Ok(())
}

/// Adds a line for each net.
fn put_nets(netlist: &Netlist<'_>, given: &[&str], out: &mut String) -> Result<(), Unanswered> {
    if !given.is_empty() {
        return Err(NO_WORDS);
    }
    for net in netlist.nets() {
        put_net(net, out)?;
    }
    Ok(())
}

/// Adds a block: its kind, its name, and for each pin the number of its net, or `open`.
fn put_block(block: &Block<'_>, out: &mut String) -> Result<(), Unanswered> {
    write!(out, "{:?} ", block.kind())?;
    put_name(out, block.name())?;
    for net in block.nets() {
        match net {
            Some(net) => write!(out, " {net}")?,
            None => out.push_str(" open")?,
        }
    }
    added(out.push('\n'))
}

/// Adds a net: its name, `global` if it is, its driver and its sinks.
fn put_net(net: &Net<'_>, out: &mut String) -> Result<(), Unanswered> {
    put_name(out, net.name())?;
    if net.is_global() {
        out.push_str(" global")?;
    }
    put_terminal(net.driver(), out)?;
    out.push_str(" ->")?;
    for sink in net.sinks() {
        put_terminal(*sink, out)?;
    }
    added(out.push('\n'))
}

/// Adds a terminal: the number of its block, and that of its class if the block is a logic block.
fn put_terminal(terminal: Terminal, out: &mut String) -> Result<(), Unanswered> {
    let block = terminal.block;
    match terminal.class {
        Some(class) => write!(out, " {block}.{class}")?,
        None => write!(out, " {block}")?,
    }
    Ok(())
}

/// Returns whether the netlist and the placement suit the device.
pub fn suits(alloc: Global, design: &Design, device: &Option<Device>) -> Result<bool, Unanswered> {
    let design = design.texts()?;
    let Some(device) = device else {
        return Err(NO_DEVICE);
    };
    let netlist = net_file::parse(alloc, design.net, design.arch)?;
    are_suited(alloc, design, device, &netlist, &netlist)
}
