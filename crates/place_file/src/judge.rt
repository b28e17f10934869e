//! A row, given the sites that the rows before it give.

ghost use Rattle.std.specs.Prelude.{◌≡◌, None, Some, IfSome, is_some, length, slice_set};
ghost use Rattle.place_file.specs.Judge.{row_fault};
ghost use Rattle.place_file.specs.kept.OccupiedSites.{IsFit};
ghost use Rattle.place_file.specs.Lines.{is_row, site_on, block_on};
ghost use Rattle.place_file.specs.Placement.{kind_at};

use crate::fault::PlaceFault;
use crate::site::{Array, Site, is_site};
use crate::sites::Sites;
use net_file::{BlockKind, Netlist};
use vpr_text::Words;

/// The site that a row gives: the line is a name and three numbers.
#[tactic(auto, unfolding(crate::specs::Lines::is_row))]
fn site_on(words: &Words) -> Option<Site>
    ensures row { is_some result ≡ is_row words.now }
    ensures site { IfSome result (λ s. s ≡ site_on words.now) }
{
    if words.len() != 4 {
        return None;
    }
    let (x, y) = (words.number(1)?, words.number(2)?);
    let subblk = words.number(3)?;
    Some(Site { x, y, subblk })
}

/// The kind of block number `block`; that of an input past the last one.
fn kind_at(netlist: &Netlist, block: usize) -> BlockKind
    ensures { result ≡ kind_at netlist.now.blocks block }
{
    match netlist.blocks().get(block) {
        Some(block) => block.kind(),
        None => BlockKind::InputPad,
    }
}

/// The first fault of row `words` on line `line`; if there is none, the row's block is put on its
/// site.
#[tactic(auto, using(crate::proofs::Placing::site_in_table, crate::proofs::Placing::block_within), unfolding(crate::specs::Judge::row_fault))]
pub(crate) fn judge(
    array: Array,
    netlist: &Netlist,
    sites: &mut Sites,
    line: u32,
    words: &Words,
) -> Option<PlaceFault>
    requires fit { IsFit array }
    requires array { sites.old.array ≡ array }
    requires count { length sites.old.sites ≡ length netlist.now.blocks }
    ensures exact { result ≡ row_fault array netlist.now.blocks sites.old.sites line words.now }
    ensures array { sites.new.array ≡ array }
    ensures put { result ≡ None → sites.new.sites ≡ slice_set sites.old.sites
        (block_on netlist.now.blocks words.now) (Some (site_on words.now)) }
{
    let Some(site) = site_on(words) else {
        return Some(PlaceFault::BadLine(line));
    };
    let Some(block) = netlist.block_named(words.word(0)) else {
        return Some(PlaceFault::UnknownBlock(line));
    };
    if sites.at(block).is_some() {
        return Some(PlaceFault::PlacedTwice(line));
    }
    if !is_site(array, kind_at(netlist, block), site) {
        return Some(PlaceFault::OffSite(line));
    }
    if sites.is_occupied(site) {
        return Some(PlaceFault::Occupied(line));
    }
    sites.put(block, site);
    None
}
