//! The tree of a net.

ghost use Rattle.std.specs.Prelude.{◌≡◌, ℕ, ◌<◌, ◌≤◌, ◌==◌, ◌↔◌, Err, IfOk, OnOk, IfSome, IfNone, IsTrue, IsFalse, Contains, [], ◌∷◌, length, slice_index, true};
ghost use Rattle.std.specs.List.{list_any, position};
ghost use Rattle.route_tree.specs.Rows.{node_in, pairs_of};
ghost use Rattle.routing_problem.specs.Nodes.{node_count_of};
ghost use Rattle.wavefront.specs.Growth.{IsAnswer, IsShut, RoutesIfFound, space_of};
ghost use Rattle.wavefront.specs.declared.search_outcome.SearchFault.TheVariants.{ViewSize};
ghost use Rattle.wavefront.specs.Space.{IsWanted};
ghost use Rattle.wavefront.specs.declared.search_outcome.Found.TheVariants.{NoPath};
ghost use Rattle.wave_ground.specs.kept.Grounds.{IsGround};
ghost use Rattle.group_wave.specs.kept.Growing.{IsAlone, IsGrowth, IsOnlyOutput, IsSized, StartsAnew, open_count};
ghost use Rattle.group_wave.specs.kept.Wave.{IsBest, IsComplete, IsOrigin, IsWave};
ghost use Rattle.group_wave.specs.kept.Steps.{IsTaken, NoOrigins};
ghost use Rattle.group_wave.specs.kept.WaveState.{FAR};

use crate::ceiling::{ceiling_after, ceiling_of};
use crate::scratch::{Scratch, WaveScratch, make_fit};
use crate::wave::Wave;
use node_cost::{GREATEST_PRESENT, View};
use route_tree::{Row, Tree};
use smallvec::SmallVec;
use std::alloc::{AllocError, Global};
use wave_ground::{Ground, PreparedProblem};
use wave_queue::Key;
use wavefront::{Found, SearchFault};

/// The rows of the tree that a net had before, or none; and whether the net keeps to that tree
/// where other ways cost the same.
#[derive(Clone, Copy)]
pub struct OldTree<'a> {
    pub rows: &'a [Row],
    pub is_kept: bool,
}

impl<'a> OldTree<'a> {
    /// The rows of the tree to which the net keeps, or none.
    fn kept(&self) -> &'a [Row] {
        if self.is_kept { self.rows } else { &[] }
    }
}

/// A tree from a net's source to all of its sinks inside its box. Each way added to it is one of
/// least cost. A way costs what its nodes cost to enter. Among equal ones the least-numbered nodes
/// are taken first, and a node is entered from the least-numbered node that leads there.
///
/// The tree that the net had before makes the search faster. What the search finds depends on that
/// tree only if the net keeps to it: among equal ways, a node is then entered from the node before
/// it on that tree, if one of them is over that node.
///
/// # Errors
///
/// ViewSize exactly if the view's length is not the node count; Memory.
pub fn route_net(
    alloc: Global,
    prepared: &PreparedProblem,
    net: u32,
    view: &View,
    present: u32,
    bb: u32,
    before: OldTree<'_>,
    scratch: &mut Scratch,
) -> Result<Found, SearchFault>
    requires net { net < length prepared.now.nets }
    requires fits { scratch.old ≡ node_count_of prepared.now.device }
    requires present { present ≤ GREATEST_PRESENT }
    requires bb { (1 ≤ bb) × (bb ≤ 255) }
    ensures found { IfOk result (IsAnswer (space_of prepared.now net view.now present bb)) }
    ensures routed { IfOk result (RoutesIfFound prepared.now net) }
    ensures view_size { (result ≡ Err ViewSize) ↔
        (length view.now ≡ node_count_of prepared.now.device → ⊥) }
    ensures fits { scratch.new ≡ node_count_of prepared.now.device }
{
    let problem = prepared.problem();
    if view.len() != problem.device().node_count() as usize {
        return Err(SearchFault::ViewSize);
    }
    let ground = Ground::new(prepared, net, view, present, bb);
    let kept = before.kept();
    if let Some(found) = grow_narrow(alloc, &ground, &mut scratch.narrow, before.rows, kept)? {
        return Ok(found);
    }
    let found = grow_wide(alloc, &ground, &mut scratch.wide, kept)?;
    Ok(found)
}

/// The tree of a net in the narrow keys. The search uses the tree that the net had before, if it
/// had one. If it isn't known then whether there is a tree, the net is searched for again without
/// that one. None if it still isn't known. Both searches keep to the tree `kept` where other ways
/// cost the same.
fn grow_narrow<K: Key>(
    alloc: Global,
    ground: &Ground<'_>,
    scratch: &mut WaveScratch<K>,
    before: &[Row],
    kept: &[Row],
) -> Result<Option<Found>, AllocError>
    requires { IsGround ground.now }
    ensures answer { IfOk result (λ found. IfSome found (IsAnswer ground.now.space)) }
{
    if !before.is_empty() {
        if let Some(found) = grow_in(alloc, ground, scratch, before, kept)? {
            return Ok(Some(found));
        }
    }
    grow_in(alloc, ground, scratch, &[], kept)
}

/// The tree of a net whose costs don't fit the narrow keys.
fn grow_wide(
    alloc: Global,
    ground: &Ground<'_>,
    scratch: &mut Option<WaveScratch<u128>>,
    kept: &[Row],
) -> Result<Found, AllocError>
    requires { IsGround ground.now }
    ensures answer { IfOk result (IsAnswer ground.now.space) }
{
    let mut wide = match scratch.take() {
        Some(wide) => wide,
        None => WaveScratch::new(alloc, ground.nodes(), ground.groups())?,
    };
    let found = grow_in(alloc, ground, &mut wide, &[], kept)?;
    *scratch = Some(wide);
    Ok(found.unwrap())
}

/// The tree of a net in a scratch, which is made to fit. None if it isn't known whether there is
/// one.
fn grow_in<K: Key>(
    alloc: Global,
    ground: &Ground<'_>,
    scratch: &mut WaveScratch<K>,
    before: &[Row],
    kept: &[Row],
) -> Result<Option<Found>, AllocError>
    requires { IsGround ground.now }
    ensures answer { IfOk result (λ found. IfSome found (IsAnswer ground.now.space)) }
    ensures narrow { IfOk result (λ found. IfNone found (K.greatest < FAR)) }
{
    make_fit(alloc, scratch, ground.nodes(), ground.groups())?;
    scratch.wave.keep_to(kept)?;
    grow_tree(alloc, ground, scratch, before)
}

/// A tree from the source to all of the sinks. Each way added to it is one of least cost. None if
/// it isn't known whether there is one, since a way may have been left out.
pub(crate) fn grow_tree<K: Key>(
    alloc: Global,
    ground: &Ground<'_>,
    scratch: &mut WaveScratch<K>,
    before: &[Row],
) -> Result<Option<Found>, AllocError>
    requires ground { IsGround ground.now }
    requires fits { IsSized ground.now scratch.old.wave }
    ensures answer { IfOk result (λ found. IfSome found (IsAnswer ground.now.space)) }
    ensures narrow { IfOk result (λ found. IfNone found (K.greatest < FAR)) }
    ensures fits { OnOk result (IsSized ground.now scratch.new.wave) }
{
    let mut tree = Tree::start(alloc, ground.source())?;
    if !begin(ground, scratch, &mut tree, before)? {
        return Ok(no_path(&scratch.wave, first_sink(ground)));
    }
    for sink in ground.sinks() {
        while !scratch.wave.starts_at(*sink) {
            if !add_way(ground, scratch, &mut tree, before)? {
                return Ok(no_path(&scratch.wave, *sink));
            }
        }
    }
    Ok(Some(Found::Tree(tree)))
}

/// The least sink.
fn first_sink(ground: &Ground<'_>) -> u32
    requires { IsGround ground.now }
    ensures { result ≡ slice_index ground.now.space.net.sinks 0 }
{
    let sinks = ground.sinks();
    sinks[0]
}

/// Lets the wave start at the source. If the source leads to one output pin only, adds the first
/// way already: all ways lead over the pin, and the wave starts there, so that it needn't begin
/// anew after the first way. False if there is no way.
fn begin<K: Key>(
    ground: &Ground<'_>,
    scratch: &mut WaveScratch<K>,
    tree: &mut Tree,
    before: &[Row],
) -> Result<bool, AllocError>
    requires ground { IsGround ground.now }
    requires fits { IsSized ground.now scratch.old.wave }
    requires tree { IsAlone ground.now tree.old }
    ensures growth { IfOk result
        (λ begun. IsTrue begun → IsGrowth ground.now tree.new scratch.new.wave) }
    ensures shut { IfOk result (λ begun. IsFalse begun → scratch.new.wave.limit ≡ FAR →
        IsShut ground.now.space []) }
    ensures fits { OnOk result (IsSized ground.now scratch.new.wave) }
{
    let only = only_output(ground, &mut scratch.next)?;
    let ceiling = ceiling_of(ground, before, only.is_none());
    scratch.wave.begin(ground, ceiling)?;
    match only {
        Some(pin) => add_first_way(ground, scratch, tree, pin),
        None => {
            scratch.wave.start_source(ground, &mut scratch.next)?;
            Ok(true)
        }
    }
}

/// The only number of a list.
fn only_of(list: &[u32]) -> Option<u32>
    ensures { IfSome result (λ number. list.now ≡ number ∷ []) }
{
    if list.len() == 1 { Some(list[0]) } else { None }
}

/// The output pin to which the source leads, if it leads to no other and the pin is inside the box.
fn only_output(ground: &Ground<'_>, next: &mut SmallVec<u32, 8>) -> Result<Option<u32>, AllocError>
    ensures { IfOk result (λ found. IfSome found (IsOnlyOutput ground.now)) }
{
    let source = ground.source();
    ground.successors(source, next)?;
    let Some(pin) = only_of(next) else {
        return Ok(None);
    };
    if ground.is_inside(pin) {
        Ok(Some(pin))
    } else {
        Ok(None)
    }
}

/// Adds the first way to the tree, over the only output pin of the source, if there is one.
fn add_first_way<K: Key>(
    ground: &Ground<'_>,
    scratch: &mut WaveScratch<K>,
    tree: &mut Tree,
    pin: u32,
) -> Result<bool, AllocError>
    requires ground { IsGround ground.now }
    requires wave { IsWave ground.now scratch.old.wave }
    requires complete { IsComplete ground.now scratch.old.wave }
    requires best { IsBest ground.now scratch.old.wave }
    requires origins { NoOrigins scratch.old.wave }
    requires pin { IsOnlyOutput ground.now pin }
    requires tree { IsAlone ground.now tree.old }
    ensures growth { IfOk result
        (λ added. IsTrue added → IsGrowth ground.now tree.new scratch.new.wave) }
    ensures shut { IfOk result (λ added. IsFalse added → scratch.new.wave.limit ≡ FAR →
        IsShut ground.now.space []) }
    ensures fits { OnOk result (IsSized ground.now scratch.new.wave) }
{
    scratch.wave.start_output(ground, pin)?;
    let Some(sink) = scratch.wave.take_sink(ground)? else {
        return Ok(false);
    };
    attach_first(ground, scratch, tree, sink)?;
    Ok(true)
}

/// Attaches the way to a taken sink at the source: the node where the way starts, and the nodes on
/// it.
fn attach_first<K: Key>(
    ground: &Ground<'_>,
    scratch: &mut WaveScratch<K>,
    tree: &mut Tree,
    sink: u32,
) -> Result<(), AllocError>
    requires ground { IsGround ground.now }
    requires wave { IsWave ground.now scratch.old.wave }
    requires complete { IsComplete ground.now scratch.old.wave }
    requires origins { (v : ℕ) → IsOrigin scratch.old.wave v → IsOnlyOutput ground.now v }
    requires taken { IsTaken ground.now scratch.old.wave sink }
    requires tree { IsAlone ground.now tree.old }
    ensures { OnOk result (IsGrowth ground.now tree.new scratch.new.wave) }
{
    let start = scratch.wave.trace(sink, &mut scratch.way)?;
    scratch.wave.start_way(ground, &scratch.way)?;
    scratch.way.insert(0, start)?;
    tree.attach(0, &scratch.way)?;
    scratch.wave.renew(ground, sink);
    Ok(())
}

/// There is no way to the sink, if none may have been left out.
fn no_path<K: Key>(wave: &Wave<K>, sink: u32) -> Option<Found>
    ensures found { IfSome result (λ found. (found ≡ NoPath sink) × (wave.now.limit ≡ FAR)) }
    ensures narrow { IfNone result (K.greatest < FAR) }
{
    if wave.leaves_out() {
        None
    } else {
        Some(Found::NoPath(sink))
    }
}

/// Adds the next way to the tree, if there is one.
fn add_way<K: Key>(
    ground: &Ground<'_>,
    scratch: &mut WaveScratch<K>,
    tree: &mut Tree,
    before: &[Row],
) -> Result<bool, AllocError>
    requires ground { IsGround ground.now }
    requires growth { IsGrowth ground.now tree.old scratch.old.wave }
    ensures growth { IfOk result
        (λ added. IsTrue added → IsGrowth ground.now tree.new scratch.new.wave) }
    ensures less { IfOk result (λ added. IsTrue added →
        open_count ground.now scratch.new.wave < open_count ground.now scratch.old.wave) }
    ensures kept { IfOk result (λ added. IsTrue added → (v : ℕ) → IsWanted ground.now.space v →
        IsOrigin scratch.old.wave v → IsOrigin scratch.new.wave v) }
    ensures shut { IfOk result (λ added. IsFalse added → scratch.new.wave.limit ≡ FAR →
        IsShut ground.now.space (pairs_of tree.old)) }
    ensures fits { OnOk result (IsSized ground.now scratch.new.wave) }
{
    let Some(sink) = scratch.wave.take_sink(ground)? else {
        return Ok(false);
    };
    let start = scratch.wave.trace(sink, &mut scratch.way)?;
    leave_source(ground, &mut scratch.wave, tree, &scratch.way, before)?;
    tree.attach(row_of(tree.as_slice(), start), &scratch.way)?;
    scratch.wave.start_way(ground, &scratch.way)?;
    scratch.wave.renew(ground, sink);
    Ok(true)
}

/// After the first way the source is no longer a start, and a wave that started there begins anew.
/// If that way leaves the source over another pin than the earlier tree, the cost of that tree is
/// no longer a ceiling.
fn leave_source<K: Key>(
    ground: &Ground<'_>,
    wave: &mut Wave<K>,
    tree: &Tree,
    way: &[u32],
    before: &[Row],
) -> Result<(), AllocError>
    requires ground { IsGround ground.now }
    requires wave { IsWave ground.now wave.old }
    requires complete { IsComplete ground.now wave.old }
    ensures { OnOk result (StartsAnew ground.now (pairs_of tree.now) wave.old wave.new) }
{
    if tree.pairs() == 0 {
        return wave.begin(ground, ceiling_after(wave.ceiling(), way, before));
    }
    Ok(())
}

/// The row of a node, if it has one.
fn find_row(rows: &[Row], node: u32) -> Option<usize>
    ensures { result ≡ position (λ r. r.node == node) rows.now }
{
    rows.iter().position(|row| row.node == node)
}

/// The row of a node.
#[tactic(auto, using(wavefront::proofs::RowNodes::row_there, wavefront::proofs::RowNodes::row_node))]
fn row_of(rows: &[Row], node: u32) -> usize
    requires { list_any (λ r. r.node == node) rows.now ≡ true }
    ensures there { result < length rows.now }
    ensures node { node_in rows.now result ≡ node }
{
    find_row(rows, node).unwrap_or(0)
}
