//! Where the sections of nets begin in the file.

ghost use Rattle.std.specs.Prelude.{◌≡◌, IfOk, get_or};
ghost use Rattle.route_explain.specs.Lines.{starts_of};
ghost use Rattle.route_explain.specs.kept.Starts.{noted};

use net_file::Netlist;
use route_file::net_begun;
use std::alloc::{AllocError, Global};
use vpr_text::Lines;

/// Records where the section of a net begins, if the net is one of the list.
fn note(starts: &mut Vec<usize>, net: Option<u32>, place: usize)
    ensures { starts.new.items ≡ noted starts.old.items net place }
{
    let Some(net) = net else {
        return;
    };
    if (net as usize) < starts.len() {
        starts[net as usize] = place;
    }
}

/// Returns for each net of the netlist the place after the line that begins its section, or 0 if
/// there is none.
pub(crate) fn section_starts(
    alloc: Global,
    netlist: &Netlist<'_>,
    lines: &Lines<'_>,
) -> Result<Vec<usize>, AllocError>
    ensures { IfOk result (λ v. v.items ≡ starts_of netlist.now lines.now) }
{
    let mut starts = vec![in alloc; 0; netlist.nets().len()]?;
    for index in 0..lines.len() {
        note(&mut starts, net_begun(lines, netlist, index), index + 1);
    }
    Ok(starts)
}

/// Returns the place at which the section of the net with this number begins, or 0 if there is
/// none.
pub(crate) fn start_at(starts: &[usize], number: u32) -> usize
    ensures { result ≡ get_or starts.now number 0 }
{
    match starts.get(number as usize) {
        Some(start) => *start,
        None => 0,
    }
}
