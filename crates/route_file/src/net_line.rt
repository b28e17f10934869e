//! The lines that nets' sections begin with.

ghost use Rattle.std.specs.Prelude.{◌≡◌, option_and_then};
ghost use Rattle.std.specs.Option.{option_copied};
ghost use Rattle.net_file.specs.Facts.{names_of_nets};
ghost use Rattle.net_file.specs.Names.{number_among};
ghost use Rattle.net_file.specs.Routed.{is_routed_at};
ghost use Rattle.route_file.specs.NetLine.{enclosed, before_ending, is_plain_form, is_global_form, name_on, is_global_at, if_global};

use net_file::Netlist;
use vpr_text::{Words, is_text};

/// What comes before this ending of a text, if it ends so.
#[tactic(auto, unfolding(crate::specs::NetLine::before_ending))]
fn before_ending<'a>(text: &'a [u8], ending: &str) -> Option<&'a [u8]>
    ensures { option_copied result ≡ before_ending ending.now text.now }
{
    let (front, end) = text.split_at(text.len().saturating_sub(ending.len()));
    if is_text(end, ending) {
        Some(front)
    } else {
        None
    }
}

/// What is between the `(` that a word begins with and this ending of the word.
#[tactic(auto, unfolding(crate::specs::NetLine::enclosed))]
fn enclosed<'a>(word: &'a [u8], ending: &str) -> Option<&'a [u8]>
    ensures { option_copied result ≡ enclosed ending.now word.now }
{
    match word {
        [b'(', rest @ ..] => before_ending(rest, ending),
        _ => None,
    }
}

/// What the line of a net gives: which form it has, and the name.
#[derive(Clone, Copy)]
pub(crate) struct NetHeading<'a> {
    pub(crate) is_plain: bool,
    pub(crate) is_global: bool,
    pub(crate) name: &'a [u8],
}

/// Whether the line has the form of nets that aren't global.
#[tactic(auto, unfolding(crate::specs::NetLine::is_plain_form))]
fn is_plain_form(words: &Words) -> bool
    ensures { result ≡ is_plain_form words.now }
{
    words.len() == 3 && words.is_number(1) && enclosed(words.word(2), ")").is_some()
}

/// Whether the line has the form of global nets.
#[tactic(auto, unfolding(crate::specs::NetLine::is_global_form))]
fn is_global_form(words: &Words) -> bool
    ensures { result ≡ is_global_form words.now }
{
    words.len() == 6
        && words.is_number(1)
        && enclosed(words.word(2), "):").is_some()
        && words.is(3, "global")
        && words.is(4, "net")
        && words.is(5, "connecting:")
}

/// What the line of a net gives.
#[tactic(auto, unfolding(crate::specs::NetLine::name_on))]
pub(crate) fn heading_on<'a>(words: &Words<'_, 'a>) -> NetHeading<'a>
    ensures plain { result.is_plain ≡ is_plain_form words.now }
    ensures global { result.is_global ≡ is_global_form words.now }
    ensures name { result.name.now ≡ name_on words.now }
{
    let is_global = is_global_form(words);
    let ending = if is_global { "):" } else { ")" };
    let name = match enclosed(words.word(2), ending) {
        Some(name) => name,
        None => &[],
    };
    NetHeading {
        is_plain: is_plain_form(words),
        is_global,
        name,
    }
}

/// Whether net `n` is global; a net past the last one isn't.
pub(crate) fn is_global_at(netlist: &Netlist, n: usize) -> bool
    ensures { result ≡ is_global_at netlist.now n }
{
    match netlist.nets().get(n) {
        Some(net) => net.is_global(),
        None => false,
    }
}

/// Whether net `n` is routed; a net past the last one isn't.
pub(crate) fn is_routed_at(netlist: &Netlist, n: usize) -> bool
    ensures { result ≡ is_routed_at netlist.now n }
{
    match netlist.nets().get(n) {
        Some(net) => !net.is_global() && net.sinks().len() > 0,
        None => false,
    }
}

/// The number of the net whose line this is: that of a global net in the form of global nets, else
/// that of another one.
#[tactic(auto, using(crate::proofs::Named::within))]
pub(crate) fn net_on(netlist: &Netlist, heading: &NetHeading) -> Option<u32>
    ensures { result ≡ option_and_then (if_global netlist.now heading.now.is_global)
        (number_among (names_of_nets netlist.now.nets) heading.now.name.now) }
{
    let nets = netlist.nets();
    let net = netlist.net_named(heading.name)?;
    if nets[net].is_global() == heading.is_global {
        Some(net as u32)
    } else {
        None
    }
}
