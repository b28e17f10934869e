//! Names by number: each name once, in the order of first appearance.

ghost use Rattle.std.specs.Prelude.{◌≡◌, [], OnOk, length, slice_index_or};
ghost use Rattle.net_file.specs.Names.{number_among, is_among, with_name};

use std::alloc::{AllocError, Global};
use std::collections::BTreeMap;
use std::marker::Model;

/// Names, each once; a name's number is its place among them. Finding a name takes a number of
/// comparisons that grows with the logarithm of how many names there are.
#[derive(Drop)]
pub(crate) struct Names<'a> {
    list: Vec<&'a [u8]>,
    numbers: BTreeMap<&'a [u8], usize>,
}

impl<'a> Model for Names<'a> {
    ghost use Rattle.std.specs.Prelude.{ℕ, List};
    ghost use Rattle.net_file.specs.kept.NameNumbers.{names_in, AreNumbered};

    ghost Value = { List (List ℕ) };

    ghost view = { λ n. names_in n.list.items };

    ghost invariant = { λ n. AreNumbered n.list.items n.numbers };
}

impl<'a> Names<'a> {
    /// No names.
    pub(crate) fn new(alloc: Global) -> Names<'a>
        ensures { result ≡ [] }
    {
        Names {
            list: Vec::new(alloc),
            numbers: BTreeMap::new(alloc),
        }
    }

    /// How many names there are.
    pub(crate) fn len(&self) -> usize
        ensures { result ≡ length self.now }
    {
        self.list.len()
    }

    /// Name number `n`; past the last name, a name without bytes.
    pub(crate) fn name(&self, n: usize) -> &'a [u8]
        ensures { result.now ≡ slice_index_or self.now n [] }
    {
        match self.list.get(n) {
            Some(name) => *name,
            None => &[],
        }
    }

    /// The number of a name, if it is one of them.
    pub(crate) fn number(&self, name: &[u8]) -> Option<usize>
        ensures { result ≡ number_among self.now name.now }
    {
        self.numbers.get(name).copied()
    }

    /// Whether the name is one of them.
    #[tactic(auto, using(crate::proofs::Numbered::numbered))]
    pub(crate) fn has(&self, name: &[u8]) -> bool
        ensures { result ≡ is_among self.now name.now }
    {
        self.number(name).is_some()
    }

    /// Adds a name, if it is new.
    pub(crate) fn add(&mut self, name: &'a [u8]) -> Result<(), AllocError>
        ensures { OnOk result (self.new ≡ with_name self.old name.now) }
    {
        if !self.has(name) {
            let number = self.list.len();
            self.list.reserve(1)?;
            self.numbers.insert(name, number)?;
            self.list.push(name).unwrap();
        }
        Ok(())
    }
}
