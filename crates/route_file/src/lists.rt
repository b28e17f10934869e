//! The lists of pairs of the nets of a netlist.

ghost use Rattle.std.specs.Prelude.{◌≡◌, ◌++◌, [], None, IfOk, OnOk, length, map, slice_index_or, slice_set, unwrap_or};
ghost use Rattle.std.specs.List.{range_with_len};
ghost use Rattle.std.specs.Option.{option_to_list};
ghost use Rattle.route_file.specs.kept.LinesSeen.{list_more};

use route_tree::{Pairs, Routing};
use rr_graph::Problem;
use std::alloc::{AllocError, Global};

/// No list for each of `count` nets.
pub(crate) fn no_lists(alloc: Global, count: usize) -> Result<Vec<Option<Pairs>>, AllocError>
    ensures { IfOk result (λ v. v.items ≡ map (λ _. None) (range_with_len 0 count)) }
{
    (0..count).map(|_| None).collect(alloc)
}

/// Takes the pairs of a list, or none if there is no list.
fn take_pairs(alloc: Global, list: &mut Option<Pairs>) -> Pairs
    ensures { result ≡ unwrap_or list.old [] }
{
    match list.take() {
        Some(pairs) => pairs,
        None => Pairs {
            items: Vec::new(alloc),
        },
    }
}

/// Adds a pair, if there is one.
fn push_pair(pairs: &mut Pairs, pair: Option<(u32, u32)>) -> Result<(), AllocError>
    ensures { OnOk result (pairs.new ≡ pairs.old ++ option_to_list pair) }
{
    if let Some(pair) = pair {
        pairs.items.push(pair)?;
    }
    Ok(())
}

/// Adds a pair, if there is one; afterwards there is a list.
fn extend(
    alloc: Global,
    list: &mut Option<Pairs>,
    pair: Option<(u32, u32)>,
) -> Result<(), AllocError>
    ensures { OnOk result (list.new ≡ list_more list.old pair) }
{
    let mut pairs = take_pairs(alloc, list);
    push_pair(&mut pairs, pair)?;
    *list = Some(pairs);
    Ok(())
}

/// Adds a pair, if there is one, to the list of net `n`, which is there afterwards.
pub(crate) fn add_pair(
    alloc: Global,
    lists: &mut Vec<Option<Pairs>>,
    n: usize,
    pair: Option<(u32, u32)>,
) -> Result<(), AllocError>
    ensures { OnOk result (lists.new.items ≡ slice_set lists.old.items n
        (list_more (slice_index_or lists.old.items n None) pair)) }
{
    if n < lists.len() {
        extend(alloc, &mut lists[n], pair)?;
    }
    Ok(())
}

/// Takes the list of net `n`, if there is one.
fn take_list(lists: &mut Vec<Option<Pairs>>, n: usize) -> Option<Pairs>
    ensures taken { result ≡ slice_index_or lists.old.items n None }
    ensures left { lists.new.items ≡ slice_set lists.old.items n None }
{
    if n < lists.len() {
        lists[n].take()
    } else {
        None
    }
}

/// The lists of the nets of a problem.
#[tactic(auto, using(crate::proofs::Taken::none_taken, crate::proofs::Taken::one_taken, crate::proofs::Taken::all_taken))]
pub(crate) fn in_order(
    alloc: Global,
    problem: &Problem,
    mut lists: Vec<Option<Pairs>>,
) -> Result<Routing, AllocError>
    ensures { IfOk result (λ r. r ≡ map (λ net. slice_index_or lists.items net.number None)
        problem.now.nets) }
{
    let mut ordered = Vec::with_capacity(alloc, problem.nets() as usize)?;
    for net in 0..problem.nets() {
        ordered.push(take_list(&mut lists, problem.number(net) as usize))?;
    }
    Ok(Routing { lists: ordered })
}
