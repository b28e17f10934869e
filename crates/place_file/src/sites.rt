//! The sites of the blocks, as far as they are known.

ghost use Rattle.std.specs.Prelude.{◌≡◌, ◌<◌, ◌&&◌, IfOk, None, Some, length, map, slice_set, true};
ghost use Rattle.std.specs.List.{filter_map, range_with_len};
ghost use Rattle.place_file.specs.kept.OccupiedSites.{IsFit, is_in_table, entry_of, table_size};
ghost use Rattle.place_file.specs.Reading.{first_missing};
ghost use Rattle.place_file.specs.Sites.{same_site, is_occupied, site_at};

use crate::site::{Array, Site};
use std::alloc::{AllocError, Global};
use std::marker::Model;

/// How many entries the table of an array's sites has: there is a column beside it on both sides,
/// and the highest column has places 0 to 101, with at most 16 pads.
fn table_size(array: Array) -> usize
    requires { IsFit array }
    ensures { result ≡ table_size array }
{
    (array.nx as usize + 2) * 1632
}

/// The entry of a site in the table.
fn entry_of(site: Site) -> usize
    requires few { site.x < 102 }
    requires rows { site.y < 102 }
    requires pads { site.subblk < 16 }
    ensures { result ≡ entry_of site }
{
    site.x as usize * 1632 + site.y as usize * 16 + site.subblk as usize
}

/// No site for each of `count` blocks.
fn no_sites(alloc: Global, count: usize) -> Result<Vec<Option<Site>>, AllocError>
    ensures { IfOk result (λ v. v.items ≡ map (λ _. None) (range_with_len 0 count)) }
{
    (0..count).map(|_| None).collect(alloc)
}

/// The sites of blocks on an array, by the numbers of the blocks.
#[derive(Drop)]
pub(crate) struct Sites {
    array: Array,
    blocks: Vec<Option<Site>>,
    /// Which sites of the array are taken.
    taken: Vec<bool>,
}

impl Model for Sites {
    ghost use Rattle.place_file.specs.kept.OccupiedSites.{IsFit, IsTable, SitesOn};

    ghost Value = { SitesOn };

    ghost view = { λ s. record { array = s.array; sites = s.blocks.items } };

    ghost invariant = { λ s. IsFit s.array × IsTable s.array s.blocks.items s.taken.items };
}

impl Sites {
    /// Blocks without sites.
    pub(crate) fn new(alloc: Global, array: Array, count: usize) -> Result<Sites, AllocError>
        requires { IsFit array }
        ensures array { IfOk result (λ s. s.array ≡ array) }
        ensures none { IfOk result (λ s. s.sites ≡ map (λ _. None) (range_with_len 0 count)) }
    {
        let blocks = no_sites(alloc, count)?;
        let taken = vec![in alloc; false; table_size(array)]?;
        Ok(Sites {
            array,
            blocks,
            taken,
        })
    }

    /// The site of block number `block`, if it has one.
    pub(crate) fn at(&self, block: usize) -> Option<Site>
        ensures { result ≡ site_at self.now.sites block }
    {
        match self.blocks.get(block) {
            Some(site) => *site,
            None => None,
        }
    }

    /// Whether a block is on the site.
    #[tactic(auto, using(crate::proofs::Placing::entry_parts, crate::proofs::Placing::entry_within))]
    pub(crate) fn is_occupied(&self, site: Site) -> bool
        requires { is_in_table self.now.array site ≡ true }
        ensures { result ≡ is_occupied self.now.sites site }
    {
        self.taken[entry_of(site)]
    }

    /// Puts a block without a site there.
    #[tactic(auto, using(crate::proofs::Placing::entry_parts, crate::proofs::Placing::entry_within))]
    pub(crate) fn put(&mut self, block: usize, site: Site)
        requires within { block < length self.old.sites }
        requires free { site_at self.old.sites block ≡ None }
        requires table { is_in_table self.old.array site ≡ true }
        ensures array { self.new.array ≡ self.old.array }
        ensures put { self.new.sites ≡ slice_set self.old.sites block (Some site) }
    {
        self.blocks[block] = Some(site);
        let entry = entry_of(site);
        self.taken[entry] = true;
    }

    /// The least block without a site.
    pub(crate) fn first_missing(&self) -> Option<usize>
        ensures { result ≡ first_missing self.now.sites }
    {
        self.blocks.iter().position(|site| !site.is_some())
    }

    /// The sites of the blocks that have one.
    pub(crate) fn known(&self, alloc: Global) -> Result<Vec<Site>, AllocError>
        ensures { IfOk result (λ v. v.items ≡ filter_map (λ s. s) self.now.sites) }
    {
        self.blocks.iter().filter_map(|site| *site).collect(alloc)
    }
}
