//! Where blocks can be.

ghost use Rattle.std.specs.Prelude.{◌≡◌};
ghost use Rattle.place_file.specs.Judge.{is_size};
ghost use Rattle.place_file.specs.Placement.{is_inside, is_beside, is_within, is_on_perimeter, is_site};
ghost use Rattle.place_file.specs.Sites.{same_site};

use arch_file::LONGEST_SIDE;
use net_file::BlockKind;

/// A site: its place, and the position among the pads of the place; 0 for a logic block.
#[derive(Clone, Copy, Debug, PartialEq, Eq)]
pub struct Site {
    pub x: u32,
    pub y: u32,
    pub subblk: u32,
}

/// An array of `nx` columns and `ny` rows of logic blocks, with `io_rat` pads at each place beside
/// it.
#[derive(Clone, Copy, Debug)]
pub(crate) struct Array {
    pub(crate) io_rat: u32,
    pub(crate) nx: u32,
    pub(crate) ny: u32,
}

/// Whether `v` is one of 1 to `n`.
fn is_inside(n: u32, v: u32) -> bool
    ensures { result ≡ is_inside n v }
{
    1 <= v && v <= n
}

/// Whether `v` is just before or just after 1 to `n`.
fn is_beside(n: u32, v: u32) -> bool
    ensures { result ≡ is_beside n v }
{
    v == 0 || v - 1 == n
}

/// Whether the array has at least one column and row, and at most as many as it may have.
pub(crate) fn is_size(array: Array) -> bool
    ensures { result ≡ is_size array }
{
    is_inside(LONGEST_SIDE, array.nx) && is_inside(LONGEST_SIDE, array.ny)
}

/// Whether the place is within the array.
fn is_within(array: Array, site: Site) -> bool
    ensures { result ≡ is_within array site }
{
    is_inside(array.nx, site.x) && is_inside(array.ny, site.y)
}

/// Whether the place is beside the array, at no corner.
fn is_on_perimeter(array: Array, site: Site) -> bool
    ensures { result ≡ is_on_perimeter array site }
{
    (is_beside(array.nx, site.x) && is_inside(array.ny, site.y))
        || (is_inside(array.nx, site.x) && is_beside(array.ny, site.y))
}

/// Whether a block of this kind can be there.
#[tactic(auto, unfolding(crate::specs::Placement::is_site))]
pub(crate) fn is_site(array: Array, kind: BlockKind, site: Site) -> bool
    ensures { result ≡ is_site array kind site }
{
    match kind {
        BlockKind::LogicBlock => is_within(array, site) && site.subblk == 0,
        BlockKind::InputPad => is_on_perimeter(array, site) && site.subblk < array.io_rat,
        BlockKind::OutputPad => is_on_perimeter(array, site) && site.subblk < array.io_rat,
    }
}
