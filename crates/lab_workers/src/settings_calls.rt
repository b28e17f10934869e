//! Calls of `node_cost`: settings, costs, and counts and histories of nodes.

use lab_session::answer::{added, put, put_labelled};
use lab_session::session::{Choice, NO_COUNTS, NO_HISTORIES, Session};
use lab_session::unanswered::Unanswered;
use lab_session::words::{Call, NO_NUMBER, no_words, number, numbers};
use node_cost::{
    Counts, GREATEST_HISTORY, GREATEST_OTHERS, GREATEST_PRESENT, Histories, Settings, cost,
};
use std::alloc::Global;

/// The number of nodes of the greatest device. 10,000 blocks have 64 pins each, every pin in a
/// class of its own, with 2 nodes for each pin. 400 places have 16 pads each, with 4 nodes for each
/// pad. 202 channels have 100 places each, with 256 wires at each place.
const MOST_NODES: u32 = 6_476_800;

/// Converts a position in a list of nodes to the number of the node.
pub fn index_of(place: usize) -> u32 {
    u32::try_from(place).unwrap_or(u32::MAX)
}

/// The answer to a word that should be a history and isn't.
pub const NO_HISTORY: Unanswered = Unanswered::Misread("a number below 2^64 for a history");

/// The refusal of a node that doesn't exist.
pub const NO_NODE: Unanswered = Unanswered::Refused("there is no such node");

/// Makes a call, and adds its answer.
pub fn call(
    alloc: Global,
    session: &mut Session,
    call: Call<'_>,
    out: &mut String,
) -> Result<(), Unanswered> {
    match call.name {
        "settings" => choose(&mut session.choice, call.given, out),
        "present" => put_present(session.settings(), call.given, out),
        "cost" => put_cost(call.given, out),
        _ => call_counts(alloc, session, call, out),
    }
}

/// Chooses settings, and adds them.
fn choose(kept: &mut Choice, given: &[&str], out: &mut String) -> Result<(), Unanswered> {
    let choice = chosen(*kept, given)?;
    put_choice(choice, out)?;
    *kept = choice;
    Ok(())
}

/// Makes a call of counts or histories, and adds its answer.
fn call_counts(
    alloc: Global,
    session: &mut Session,
    call: Call<'_>,
    out: &mut String,
) -> Result<(), Unanswered> {
    match call.name {
        "counts" => make_counts(alloc, &mut session.counts, call.given, out),
        "count" => put_count(&session.counts, call.given, out),
        "set_count" | "add_one" | "take_one" => change_kept(&mut session.counts, call, out),
        "copy_counts" => {
            let other = &mut session.others.counts;
            copy_counts(&session.counts, other, call.given, out)
        }
        "dump_counts" => dump_kept(&session.counts, call.given, out),
        _ => call_histories(alloc, &mut session.histories, call, out),
    }
}

/// Changes the count of a node, and adds the new count.
fn change_kept(
    counts: &mut Option<Counts>,
    call: Call<'_>,
    out: &mut String,
) -> Result<(), Unanswered> {
    match counts {
        Some(counts) => change_count(counts, call.name, call.given, out),
        None => Err(NO_COUNTS),
    }
}

/// Adds the counts above 0.
fn dump_kept(counts: &Option<Counts>, given: &[&str], out: &mut String) -> Result<(), Unanswered> {
    no_words(given)?;
    match counts {
        Some(counts) => dump_counts(counts, out),
        None => Err(NO_COUNTS),
    }
}

/// Makes a call of histories, and adds its answer.
fn call_histories(
    alloc: Global,
    histories: &mut Option<Histories>,
    call: Call<'_>,
    out: &mut String,
) -> Result<(), Unanswered> {
    match call.name {
        "histories" => make_histories(alloc, histories, call.given, out),
        "history_at" | "is_none" => look_at_one(histories, call, out),
        "set_history" => match histories {
            Some(histories) => set_history(histories, call.given, out),
            None => Err(NO_HISTORIES),
        },
        "copy_histories" | "dump_histories" => look_at_all(alloc, histories, call, out),
        _ => Err(Unanswered::NoCall),
    }
}

/// Makes a look-up of the history of the node that a call gives.
fn look_at_one(
    histories: &Option<Histories>,
    call: Call<'_>,
    out: &mut String,
) -> Result<(), Unanswered> {
    let [id] = numbers::<1>(call.given)?;
    match histories {
        Some(histories) => look_at_history(histories, call.name, id, out),
        None => Err(NO_HISTORIES),
    }
}

/// Makes a look-up of all histories, by a call without words.
fn look_at_all(
    alloc: Global,
    histories: &Option<Histories>,
    call: Call<'_>,
    out: &mut String,
) -> Result<(), Unanswered> {
    no_words(call.given)?;
    match histories {
        Some(histories) => look_at_histories(alloc, histories, call.name, out),
        None => Err(NO_HISTORIES),
    }
}

/// Adds the number of nets that use a node.
fn put_count(counts: &Option<Counts>, given: &[&str], out: &mut String) -> Result<(), Unanswered> {
    let [id] = numbers::<1>(given)?;
    match counts {
        Some(counts) => put(out, count(counts, id)?),
        None => Err(NO_COUNTS),
    }
}

/// Makes a look-up of a node's history.
fn look_at_history(
    histories: &Histories,
    name: &str,
    id: u32,
    out: &mut String,
) -> Result<(), Unanswered> {
    match name {
        "history_at" => put(out, history(histories, id)?),
        _ => put(out, is_none(histories, id)?),
    }
}

/// Makes a look-up of all histories.
fn look_at_histories(
    alloc: Global,
    histories: &Histories,
    name: &str,
    out: &mut String,
) -> Result<(), Unanswered> {
    match name {
        "copy_histories" => copy_histories(alloc, histories, out),
        _ => dump_histories(histories, out),
    }
}

/// Returns the choice that words give: six numbers, `standard`, or no words for the old choice; and
/// that nets keep to their trees, if the last word is `steady`.
fn chosen(old: Choice, given: &[&str]) -> Result<Choice, Unanswered> {
    match given.split_last() {
        Some((word, others)) if *word == "steady" => {
            let mut choice = chosen_numbers(old, others)?;
            choice.is_steady = true;
            Ok(choice)
        }
        _ => chosen_numbers(old, given),
    }
}

/// Returns the choice that six numbers give, or `standard`, or the old one without words.
fn chosen_numbers(old: Choice, given: &[&str]) -> Result<Choice, Unanswered> {
    match given {
        [] => Ok(old),
        [word] if *word == "standard" => Ok(Choice::standard()),
        [_, _, _, _, _, _] => within_ranges(choice_of(given)?),
        _ => Err(Unanswered::Misread("settings FIRST INIT MULT ACC BB ITERATIONS [steady]")),
    }
}

/// Reads a choice from six numbers.
fn choice_of(given: &[&str]) -> Result<Choice, Unanswered> {
    let [first, init, mult, acc, bb, iterations] = numbers::<6>(given)?;
    Ok(Choice {
        first,
        init,
        mult,
        acc,
        bb,
        iterations,
        is_steady: false,
    })
}

/// Returns the choice as its settings have it, or refuses a number that is out of range.
fn within_ranges(choice: Choice) -> Result<Choice, Unanswered> {
    let settings = choice.settings()?;
    Ok(Choice::of(&settings))
}

fn put_choice(choice: Choice, out: &mut String) -> Result<(), Unanswered> {
    let numbers = [
        ("first", u64::from(choice.first)),
        ("init", u64::from(choice.init)),
        ("mult", u64::from(choice.mult)),
        ("acc", u64::from(choice.acc)),
        ("bb", u64::from(choice.bb)),
        ("iterations", u64::from(choice.iterations)),
    ];
    put_labelled(out, &numbers)?;
    let steady = if choice.is_steady { ", steady" } else { "" };
    added(writeln!(out, "{steady}"))
}

/// Adds the present-congestion factor of an iteration.
fn put_present(settings: Settings, given: &[&str], out: &mut String) -> Result<(), Unanswered> {
    let [iteration] = numbers::<1>(given)?;
    if !(1..=500).contains(&iteration) {
        return Err(Unanswered::Refused("an iteration is one of 1 to 500"));
    }
    put(out, settings.present(iteration))
}

/// Returns the number that a word gives, if there is one below 2^64.
pub fn long_number(word: &str) -> Option<u64> {
    match word.parse::<u64>() {
        Ok(number) => Some(number),
        Err(_) => None,
    }
}

/// Adds the cost of entering a node.
fn put_cost(given: &[&str], out: &mut String) -> Result<(), Unanswered> {
    let [base, history, capacity, others, present] = given else {
        return Err(Unanswered::Misread("cost BASE HISTORY CAPACITY OTHERS PRESENT"));
    };
    let (Some(base), history) = (number(base), long_number(history)) else {
        return Err(NO_NUMBER);
    };
    let Some(history) = history else {
        return Err(NO_HISTORY);
    };
    let (Some(capacity), Some(others), Some(present)) = (
        number(capacity),
        number(others),
        number(present),
    ) else {
        return Err(NO_NUMBER);
    };
    if base > 20 || history > GREATEST_HISTORY || capacity < 1 {
        return Err(Unanswered::Refused("base cost, history or capacity is out of range"));
    }
    if others > GREATEST_OTHERS || present > GREATEST_PRESENT {
        return Err(Unanswered::Refused("others or present factor is out of range"));
    }
    put(out, cost(base, history, capacity, others, present))
}

/// Reads the number of nodes that a value is made for, at most `MOST_NODES`.
pub fn number_of_nodes(given: &[&str]) -> Result<usize, Unanswered> {
    let [nodes] = numbers::<1>(given)?;
    if nodes > MOST_NODES {
        return Err(Unanswered::Refused("a device has at most 6,476,800 nodes"));
    }
    Ok(nodes as usize)
}

fn make_counts(
    alloc: Global,
    kept: &mut Option<Counts>,
    given: &[&str],
    out: &mut String,
) -> Result<(), Unanswered> {
    let nodes = number_of_nodes(given)?;
    *kept = Some(Counts::new(alloc, nodes)?);
    added(writeln!(out, "{nodes} nodes"))
}

fn make_histories(
    alloc: Global,
    kept: &mut Option<Histories>,
    given: &[&str],
    out: &mut String,
) -> Result<(), Unanswered> {
    let nodes = number_of_nodes(given)?;
    *kept = Some(Histories::new(alloc, nodes)?);
    added(writeln!(out, "{nodes} nodes"))
}

/// Returns the number of nets that use a node.
fn count(counts: &Counts, id: u32) -> Result<u32, Unanswered> {
    if (id as usize) < counts.len() {
        Ok(counts.get(id))
    } else {
        Err(NO_NODE)
    }
}

/// Returns the history of a node.
fn history(histories: &Histories, id: u32) -> Result<u64, Unanswered> {
    if (id as usize) < histories.len() {
        Ok(histories.get(id))
    } else {
        Err(NO_NODE)
    }
}

/// Returns whether the history of a node is 0.
fn is_none(histories: &Histories, id: u32) -> Result<bool, Unanswered> {
    if (id as usize) < histories.len() {
        Ok(histories.is_none(id))
    } else {
        Err(NO_NODE)
    }
}

/// Changes the count of a node, and adds the new count.
fn change_count(
    counts: &mut Counts,
    name: &str,
    given: &[&str],
    out: &mut String,
) -> Result<(), Unanswered> {
    let id = changed(counts, name, given)?;
    put(out, count(counts, id)?)
}

/// Changes the count of a node, and returns the node.
fn changed(counts: &mut Counts, name: &str, given: &[&str]) -> Result<u32, Unanswered> {
    match name {
        "set_count" => set_count(counts, given),
        "add_one" => add_one(counts, given),
        _ => take_one(counts, given),
    }
}

fn set_count(counts: &mut Counts, given: &[&str]) -> Result<u32, Unanswered> {
    let [id, value] = numbers::<2>(given)?;
    if id as usize >= counts.len() {
        return Err(NO_NODE);
    }
    if value > 65535 {
        return Err(Unanswered::Refused("at most 65,535 nets use a node"));
    }
    counts.set(id, value);
    Ok(id)
}

fn add_one(counts: &mut Counts, given: &[&str]) -> Result<u32, Unanswered> {
    let [id] = numbers::<1>(given)?;
    if count(counts, id)? >= 65535 {
        return Err(Unanswered::Refused("at most 65,535 nets use a node"));
    }
    if (id as usize) < counts.len() && counts.get(id) < 65535 {
        counts.add_one(id);
    }
    Ok(id)
}

fn take_one(counts: &mut Counts, given: &[&str]) -> Result<u32, Unanswered> {
    let [id] = numbers::<1>(given)?;
    if count(counts, id)? == 0 {
        return Err(Unanswered::Refused("no net uses the node"));
    }
    if (id as usize) < counts.len() && counts.get(id) > 0 {
        counts.take_one(id);
    }
    Ok(id)
}

/// Sets the history of a node, and adds it.
fn set_history(
    histories: &mut Histories,
    given: &[&str],
    out: &mut String,
) -> Result<(), Unanswered> {
    let [id, value] = given else {
        return Err(Unanswered::Misread("set_history ID HISTORY"));
    };
    let (Some(id), value) = (number(id), long_number(value)) else {
        return Err(NO_NUMBER);
    };
    let Some(value) = value else {
        return Err(NO_HISTORY);
    };
    if id as usize >= histories.len() {
        return Err(NO_NODE);
    }
    if value > GREATEST_HISTORY {
        return Err(Unanswered::Refused("a history is at most 2^42"));
    }
    histories.set(id, value);
    put(out, value)
}

/// Copies the counts into the other counts, which must have as many nodes.
fn copy_counts(
    counts: &Option<Counts>,
    other: &mut Option<Counts>,
    given: &[&str],
    out: &mut String,
) -> Result<(), Unanswered> {
    no_words(given)?;
    let Some(counts) = counts else {
        return Err(NO_COUNTS);
    };
    let Some(other) = other else {
        return Err(Unanswered::Refused("there are no other counts"));
    };
    if other.len() != counts.len() {
        return Err(Unanswered::Refused("the counts are of different numbers of nodes"));
    }
    other.copy_from(counts);
    added(writeln!(out, "{} nodes", other.len()))
}

/// Adds a line for each node that a net uses.
fn dump_counts(counts: &Counts, out: &mut String) -> Result<(), Unanswered> {
    for id in 0..counts.len() {
        let count = count(counts, index_of(id))?;
        if count > 0 {
            writeln!(out, "{id}: {count}")?;
        }
    }
    Ok(())
}

/// Adds a line for each node that has a history.
fn dump_histories(histories: &Histories, out: &mut String) -> Result<(), Unanswered> {
    for id in 0..histories.len() {
        let history = history(histories, index_of(id))?;
        if history > 0 {
            writeln!(out, "{id}: {history}")?;
        }
    }
    Ok(())
}

/// Copies the histories by `copy` and that copy by `copy_from`, and adds whether the last copy is
/// equal to the histories.
fn copy_histories(
    alloc: Global,
    histories: &Histories,
    out: &mut String,
) -> Result<(), Unanswered> {
    let copy = histories.copy(alloc)?;
    let other = copied(alloc, &copy)?;
    put(out, are_equal(histories, &other))
}

/// Returns new histories that `copy_from` made equal to these.
fn copied(alloc: Global, histories: &Histories) -> Result<Histories, Unanswered> {
    let mut other = Histories::new(alloc, histories.len())?;
    if other.len() == histories.len() {
        other.copy_from(histories);
    }
    Ok(other)
}

/// Returns whether all nodes have the same histories in both.
fn are_equal(one: &Histories, other: &Histories) -> bool {
    let nodes = one.len().max(other.len());
    (0..nodes).all(|id| match (history(one, index_of(id)), history(other, index_of(id))) {
        (Ok(one), Ok(other)) => one == other,
        _ => false,
    })
}
