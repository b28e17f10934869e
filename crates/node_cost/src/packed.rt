//! How many nets use each node, packed into four bits a node: three for the number, and one that
//! can say whether the node has a history. A table has the numbers that don't fit.

ghost use Rattle.std.specs.Prelude.{◌≡◌, ◌<◌, ◌≤◌, ◌+◌, ◌*◌, ◌/◌, ◌%◌, ◌↔◌, ℕ, IsTrue, true, false, length, get_or, set};
ghost use Rattle.node_cost.specs.kept.Words.{number_at};
ghost use Rattle.node_cost.specs.kept.Packed.{narrow_of, flag_of, count_of, counts_of, IsMarked, IsFull, IsPlain, AreFlags, PutsNarrow, CopiesPart, CopiesBlock};

use crate::words::{number_at, put_number};

/// Returns the four bits of a node.
#[tactic(auto, unfolding(crate::specs::kept::Packed::narrow_of))]
pub(crate) fn narrow(words: &[u64], id: u32) -> u64
    requires { id < 16 * length words.now }
    ensures exact { result ≡ narrow_of words.now id }
    ensures bounded { result < 16 }
{
    number_at(words[(id / 16) as usize], id % 16)
}

/// Returns whether the four bits of a node are 0.
#[inline(always)]
pub(crate) fn is_blank(words: &[u64], id: u32) -> bool
    requires { id < 16 * length words.now }
    ensures { IsTrue result ↔ (narrow_of words.now id ≡ 0) }
{
    narrow(words, id) == 0
}

/// Sets the four bits of a node.
pub(crate) fn put_narrow(words: &mut [u64], id: u32, number: u64)
    requires there { id < 16 * length words.old }
    requires bounded { number < 16 }
    ensures { PutsNarrow id number words.old words.new }
{
    let word = &mut words[(id / 16) as usize];
    *word = put_number(*word, id % 16, number);
}

/// Sets the flag of a node to 0 or 1.
pub(crate) fn put_flag(words: &mut [u64], id: u32, flag: u64)
    requires there { id < 16 * length words.old }
    requires bounded { flag < 2 }
    ensures { PutsNarrow id (narrow_of words.old id % 8 + 8 * flag) words.old words.new }
{
    let number = narrow(words, id) % 8;
    put_narrow(words, id, number + 8 * flag);
}

/// Returns how many nets use a node.
#[inline(always)]
#[tactic(auto, unfolding(crate::specs::kept::Packed::count_of))]
pub(crate) fn count(words: &[u64], wide: &[u16], id: u32) -> u32
    requires there { id < length wide.now }
    requires each { length words.now ≡ length wide.now / 16 + 1 }
    ensures exact { result ≡ count_of words.now wide.now id }
    ensures bounded { result ≤ 65535 }
{
    let narrow = narrow(words, id) % 8;
    if narrow == 7 {
        u32::from(wide[id as usize])
    } else {
        narrow as u32
    }
}

/// Sets how many nets use a node. Flags stay.
pub(crate) fn put_count(
    words: &mut [u64],
    wide: &mut [u16],
    marks: &mut [bool],
    id: u32,
    count: u32,
)
    requires there { id < length wide.old }
    requires each { length words.old ≡ length wide.old / 16 + 1 }
    requires blocks { length marks.old ≡ length wide.old / 1024 + 1 }
    requires marked { IsMarked words.old marks.old }
    requires full { IsFull words.old wide.old }
    requires bounded { count ≤ 65535 }
    ensures counts { counts_of words.new wide.new ≡ set (counts_of words.old wide.old) id count }
    ensures marked { IsMarked words.new marks.new }
    ensures full { IsFull words.new wide.new }
    ensures flags { (k : ℕ) → flag_of words.new k ≡ flag_of words.old k }
{
    let flag = narrow(words, id) / 8;
    if count < 7 {
        put_narrow(words, id, 8 * flag + u64::from(count));
    } else {
        put_narrow(words, id, 8 * flag + 7);
        wide[id as usize] = count as u16;
        marks[(id / 1024) as usize] = true;
    }
}

/// Copies the table's numbers from one place up to another.
fn copy_part(wide: &mut [u16], from: &[u16], first: usize, end: usize)
    requires ordered { first ≤ end }
    requires within { end ≤ length wide.old }
    requires same { length wide.old ≡ length from.now }
    ensures { CopiesPart first end from.now wide.old wide.new }
{
    wide[first..end].copy_from_slice(&from[first..end]);
}

/// Copies the table's numbers of a block of nodes, if it is marked.
#[tactic(auto, using(crate::proofs::Packing::block_kept, crate::proofs::Packing::block_copied))]
fn copy_block(wide: &mut [u16], from: &[u16], block: usize, is_marked: bool)
    requires same { length wide.old ≡ length from.now }
    requires there { 1024 * block ≤ length wide.old }
    ensures { CopiesBlock block is_marked from.now wide.old wide.new }
{
    if is_marked {
        let first = 1024 * block;
        let end = first + (wide.len() - first).min(1024);
        copy_part(wide, from, first, end);
    }
}

/// Copies the table's numbers of all marked blocks.
#[tactic(auto, using(crate::proofs::Packing::agrees_more, crate::proofs::Packing::agrees_all))]
fn copy_wide(wide: &mut [u16], from: &[u16], marks: &[bool])
    requires same { length wide.old ≡ length from.now }
    requires blocks { length marks.now ≡ length wide.old / 1024 + 1 }
    ensures { (id : ℕ) → get_or marks.now (id / 1024) false ≡ true →
        get_or wide.new id 0 ≡ get_or from.now id 0 }
{
    for block in 0..marks.len() {
        copy_block(wide, from, block, marks[block]);
    }
}

/// Copies counts.
pub(crate) fn copy_counts(
    words: &mut [u64],
    wide: &mut [u16],
    from_words: &[u64],
    from_wide: &[u16],
    from_marks: &[bool],
)
    requires words { length words.old ≡ length from_words.now }
    requires same { length wide.old ≡ length from_wide.now }
    requires blocks { length from_marks.now ≡ length wide.old / 1024 + 1 }
    requires marked { IsMarked from_words.now from_marks.now }
    requires full { IsFull from_words.now from_wide.now }
    ensures words { words.new ≡ from_words.now }
    ensures counts { counts_of words.new wide.new ≡ counts_of from_words.now from_wide.now }
    ensures full { IsFull words.new wide.new }
{
    words.copy_from_slice(from_words);
    copy_wide(wide, from_wide, from_marks);
}

/// Copies words of numbers without flags, and adds flags.
fn copy_words(words: &mut [u64], plain: &[u64], flags: &[u64])
    requires words { length words.old ≡ length plain.now }
    requires flags { length flags.now ≡ length plain.now }
    requires plain { IsPlain plain.now }
    requires only { AreFlags flags.now }
    ensures { (id : ℕ) → narrow_of words.new id ≡ narrow_of plain.now id + narrow_of flags.now id }
{
    for at in 0..words.len() {
        words[at] = with_flags(plain[at], flags[at]);
    }
}

/// Returns a word of numbers without flags, with flags added.
#[inline(always)]
fn with_flags(word: u64, flags: u64) -> u64
    requires plain { (place : ℕ) → place < 16 → number_at word place < 8 }
    requires only { (place : ℕ) → place < 16 → number_at flags place % 8 ≡ 0 }
    ensures { (place : ℕ) → place < 16
        → number_at result place ≡ number_at word place + number_at flags place }
{
    word + flags
}

/// Copies counts without flags, and adds flags.
pub(crate) fn copy_with_flags(
    words: &mut [u64],
    wide: &mut [u16],
    from_words: &[u64],
    from_wide: &[u16],
    from_marks: &[bool],
    flags: &[u64],
)
    requires words { length words.old ≡ length from_words.now }
    requires flags { length flags.now ≡ length from_words.now }
    requires same { length wide.old ≡ length from_wide.now }
    requires blocks { length from_marks.now ≡ length wide.old / 1024 + 1 }
    requires marked { IsMarked from_words.now from_marks.now }
    requires full { IsFull from_words.now from_wide.now }
    requires plain { IsPlain from_words.now }
    requires only { AreFlags flags.now }
    ensures counts { counts_of words.new wide.new ≡ counts_of from_words.now from_wide.now }
    ensures marked { IsMarked words.new from_marks.now }
    ensures full { IsFull words.new wide.new }
    ensures flags { (id : ℕ) → flag_of words.new id ≡ flag_of flags.now id }
{
    copy_words(words, from_words, flags);
    copy_wide(wide, from_wide, from_marks);
}
