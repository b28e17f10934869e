//! What is kept of the lines so far.

ghost use Rattle.std.specs.Prelude.{◌≡◌, ◌++◌, ◌∷◌, [], OnOk, not, filter};
ghost use Rattle.net_file.specs.Lines.{is_open, net_names_on, global_names_on, block_name_on};
ghost use Rattle.net_file.specs.Names.{with_names};
ghost use Rattle.net_file.specs.kept.LinesSeen.{IsSeen, latest_after, Notes};

use crate::line::{is_element, is_global, is_open, is_pinlist, kind_at, name_in};
use crate::names::Names;
use crate::terminal::BlockKind;
use std::alloc::{AllocError, Global};
use vpr_text::Words;

/// What the lines so far say, as far as later lines depend on it.
#[derive(Drop)]
pub(crate) struct Seen<'a> {
    /// The element that waits for its pinlist.
    pub(crate) opened: Option<BlockKind>,
    /// The kind of the last block.
    pub(crate) latest: Option<BlockKind>,
    pub(crate) blocks: Names<'a>,
    /// The nets of the pinlists, by number.
    pub(crate) nets: Names<'a>,
    /// The names that `.global` lines have.
    pub(crate) globals: Names<'a>,
}

/// Adds the words that are new.
fn add_words<'a>(names: &mut Names<'a>, words: Words<'_, 'a>) -> Result<(), AllocError>
    ensures { OnOk result (names.new ≡ with_names names.old words.entry) }
{
    for word in words {
        names.add(word)?;
    }
    Ok(())
}

/// Adds the net, if the word names one.
fn add_net<'a>(names: &mut Names<'a>, word: &'a [u8]) -> Result<(), AllocError>
    ensures { OnOk result (names.new ≡ with_names names.old
        (filter (λ w. not (is_open w)) (word.now ∷ []))) }
{
    if !is_open(word) {
        names.add(word)?;
    }
    Ok(())
}

/// Adds the nets of a pinlist that are new.
fn add_nets<'a>(names: &mut Names<'a>, words: Words<'_, 'a>) -> Result<(), AllocError>
    ensures { OnOk result (names.new ≡ with_names names.old
        (filter (λ word. not (is_open word)) words.entry)) }
{
    for word in words {
        add_net(names, word)?;
    }
    Ok(())
}

/// Adds the name of the block, if the line is an element.
fn note_block<'a>(names: &mut Names<'a>, words: &Words<'_, 'a>) -> Result<(), AllocError>
    ensures { OnOk result (names.new ≡ with_names names.old (block_name_on words.now)) }
{
    if is_element(words) {
        names.add(name_in(words))?;
    }
    Ok(())
}

/// Adds the nets of the line, if it is a pinlist.
fn note_nets<'a>(names: &mut Names<'a>, words: &Words<'_, 'a>) -> Result<(), AllocError>
    ensures { OnOk result (names.new ≡ with_names names.old (net_names_on words.now)) }
{
    if is_pinlist(words) {
        add_nets(names, words.rest(1))?;
    }
    Ok(())
}

/// Adds the names of the line, if it makes nets global.
fn note_globals<'a>(names: &mut Names<'a>, words: &Words<'_, 'a>) -> Result<(), AllocError>
    ensures { OnOk result (names.new ≡ with_names names.old (global_names_on words.now)) }
{
    if is_global(words) {
        add_words(names, words.rest(1))?;
    }
    Ok(())
}

/// The kind of the last block, after this line.
fn latest_after(latest: Option<BlockKind>, words: &Words) -> Option<BlockKind>
    ensures { result ≡ latest_after latest words.now }
{
    if is_element(words) {
        kind_at(words)
    } else {
        latest
    }
}

impl<'a> Seen<'a> {
    /// What no lines say.
    pub(crate) fn new(alloc: Global) -> Seen<'a>
        ensures { IsSeen [] result }
    {
        Seen {
            opened: None,
            latest: None,
            blocks: Names::new(alloc),
            nets: Names::new(alloc),
            globals: Names::new(alloc),
        }
    }

    /// Adds a line.
    pub(crate) fn note(&mut self, words: &Words<'_, 'a>) -> Result<(), AllocError>
        ensures { OnOk result (Notes self.old self.new words.now) }
    {
        note_block(&mut self.blocks, words)?;
        note_nets(&mut self.nets, words)?;
        note_globals(&mut self.globals, words)?;
        self.latest = latest_after(self.latest, words);
        self.opened = kind_at(words);
        Ok(())
    }
}
