//! What a search works in.

ghost use Rattle.std.specs.Prelude.{◌≡◌, ◌==◌, IfOk, OnOk, length};
ghost use Rattle.routing_problem.specs.Nodes.{node_count_of};

use crate::wave::Wave;
use routing_problem::Problem;
use smallvec::SmallVec;
use std::alloc::{AllocError, Global};
use std::marker::Model;
use wave_ground::PreparedProblem;
use wave_queue::Key;

/// What a search with keys of one width works in. It may be used again, whatever an earlier search
/// left in it.
#[derive(Drop)]
pub(crate) struct WaveScratch<K: Key> {
    pub(crate) wave: Wave<K>,
    /// The output pins of a source.
    pub(crate) next: SmallVec<u32, 8>,
    /// The nodes of a way.
    pub(crate) way: Vec<u32>,
}

impl<K: Key> WaveScratch<K> {
    /// A scratch for this many nodes and groups.
    pub(crate) fn new(
        alloc: Global,
        nodes: usize,
        groups: usize,
    ) -> Result<WaveScratch<K>, AllocError>
        ensures rows { IfOk result (λ scratch. length scratch.wave.labels ≡ nodes) }
        ensures groups { IfOk result (λ scratch. length scratch.wave.known ≡ groups) }
    {
        Ok(WaveScratch {
            wave: Wave::new(alloc, nodes, groups)?,
            next: SmallVec::new(alloc),
            way: Vec::new(alloc),
        })
    }
}

/// Makes it fit this many nodes and groups, if it is for others.
pub(crate) fn make_fit<K: Key>(
    alloc: Global,
    scratch: &mut WaveScratch<K>,
    nodes: usize,
    groups: usize,
) -> Result<(), AllocError>
    ensures rows { OnOk result (length scratch.new.wave.labels ≡ nodes) }
    ensures groups { OnOk result (length scratch.new.wave.known ≡ groups) }
{
    if !scratch.wave.fits(nodes, groups) {
        *scratch = WaveScratch::new(alloc, nodes, groups)?;
    }
    Ok(())
}

/// What a search works in: it may be used again, whatever an earlier search left in it. Contracts
/// see for how many nodes it is.
#[derive(Drop)]
pub struct Scratch {
    nodes: usize,
    pub(crate) narrow: WaveScratch<u32>,
    /// For nets whose costs don't fit the narrow keys, from the first one on.
    pub(crate) wide: Option<WaveScratch<u128>>,
}

impl Model for Scratch {
    ghost use Rattle.std.specs.Prelude.{ℕ};

    ghost Value = { ℕ };

    ghost view = { λ s. s.nodes };
}

impl Scratch {
    /// A scratch for the nets of a problem.
    ///
    /// # Errors
    ///
    /// If memory runs out.
    pub fn new(alloc: Global, prepared: &PreparedProblem) -> Result<Scratch, AllocError>
        ensures { IfOk result (λ scratch. scratch ≡ node_count_of prepared.now.device) }
    {
        let nodes = prepared.problem().device().node_count() as usize;
        let groups = prepared.tables().groups.len() as usize;
        Ok(Scratch {
            nodes,
            narrow: WaveScratch::new(alloc, nodes, groups)?,
            wide: None,
        })
    }

    /// Whether it is for as many nodes as the problem's device has.
    pub fn fits(&self, problem: &Problem) -> bool
        ensures { result ≡ (self.now == node_count_of problem.now.device) }
    {
        self.nodes == problem.device().node_count() as usize
    }
}
