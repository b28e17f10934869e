//! Where the nets of a problem begin and end: its terminals in the order of the blocks and pads
//! that they belong to, each with its nets.

use rr_graph::Problem;
use std::alloc::{AllocError, Global};

/// A source or a sink, with its nets.
#[derive(Clone, Copy, Debug)]
pub(crate) struct Terminal {
    pub(crate) x: u32,
    pub(crate) y: u32,
    pub(crate) is_source: bool,
    /// Its number there.
    number: u32,
    /// The class of its pins; none for a pad.
    pub(crate) class: Option<u32>,
    /// Where its nets begin, and where they end.
    first: usize,
    end: usize,
}

/// Where a net begins or ends: the column and the row, whether it is a sink and its number there,
/// and the net.
type Ending = ((u32, u32), (bool, u32), u32);

/// The terminals of a problem.
#[derive(Drop)]
pub(crate) struct Terminals {
    nx: u32,
    ny: u32,
    net_count: u32,
    all: Vec<Terminal>,
    /// The nets of the terminals, in their order.
    nets: Vec<u32>,
    /// The index of each net's source.
    sources: Vec<usize>,
    /// The indices of the terminals of each block and of the pads of each column and row: the first
    /// one, and that after the last.
    spans: Vec<(usize, usize)>,
}

/// Adds where a net begins or ends.
fn push_ending(
    endings: &mut Vec<Ending>,
    problem: &Problem,
    id: u32,
    net: u32,
    is_sink: bool,
) -> Result<(), AllocError> {
    if let Some(node) = problem.device().node(id) {
        endings.push(((node.x, node.y), (is_sink, node.number), net))?;
    }
    Ok(())
}

/// Adds where a net begins and where it ends.
fn push_net(endings: &mut Vec<Ending>, problem: &Problem, net: u32) -> Result<(), AllocError> {
    if net >= problem.nets() {
        return Ok(());
    }
    push_ending(endings, problem, problem.source(net), net, false)?;
    for id in problem.sinks(net) {
        push_ending(endings, problem, *id, net, true)?;
    }
    Ok(())
}

/// Where the nets of a problem begin and end, in order.
fn endings_of(alloc: Global, problem: &Problem) -> Result<Vec<Ending>, AllocError> {
    let mut endings = Vec::new(alloc);
    for net in 0..problem.nets() {
        push_net(&mut endings, problem, net)?;
    }
    endings.sort()?;
    Ok(endings)
}

impl Terminals {
    /// The terminals of a problem.
    pub(crate) fn new(alloc: Global, problem: &Problem) -> Result<Terminals, AllocError> {
        let endings = endings_of(alloc, problem)?;
        let mut terminals = Terminals::none(alloc, problem)?;
        for ending in &endings {
            terminals.add(*ending)?;
        }
        Ok(terminals)
    }

    /// A problem's terminals, none of them added yet.
    fn none(alloc: Global, problem: &Problem) -> Result<Terminals, AllocError> {
        let nx = problem.device().nx();
        let ny = problem.device().ny();
        let columns = (nx as usize).saturating_add(2);
        let rows = (ny as usize).saturating_add(2);
        let sources = vec![in alloc; 0; problem.nets() as usize]?;
        let spans = vec![in alloc; (0, 0); columns.saturating_mul(rows)]?;
        Ok(Terminals {
            nx,
            ny,
            net_count: problem.nets(),
            all: Vec::new(alloc),
            nets: Vec::new(alloc),
            sources,
            spans,
        })
    }

    /// Where the span of the block or the pads at (x, y) is.
    fn spot(&self, x: u32, y: u32) -> usize {
        let rows = (self.ny as usize).saturating_add(2);
        (x as usize).saturating_mul(rows).saturating_add(y as usize)
    }

    /// Whether a logic block is at (x, y).
    fn is_block(&self, x: u32, y: u32) -> bool {
        (1 <= x && x <= self.nx) && (1 <= y && y <= self.ny)
    }

    /// Whether the last terminal is the one of this ending.
    fn ends_with(&self, ending: Ending) -> bool {
        match self.all.last() {
            Some(last) => {
                (last.x, last.y) == ending.0 && (!last.is_source, last.number) == ending.1
            }
            None => false,
        }
    }

    /// Adds the terminal of an ending, with no nets yet.
    fn begin(&mut self, ending: Ending) -> Result<(), AllocError> {
        let ((x, y), (is_sink, number), _) = ending;
        let at = self.all.len();
        let is_block = self.is_block(x, y);
        let spot = self.spot(x, y);
        if let Some(span) = self.spans.get_mut(spot) {
            let first = if span.1 == 0 { at } else { span.0 };
            *span = (first, at.saturating_add(1));
        }
        let first = self.nets.len();
        self.all.push(Terminal {
            x,
            y,
            is_source: !is_sink,
            number,
            class: if is_block { Some(number) } else { None },
            first,
            end: first,
        })?;
        Ok(())
    }

    /// Adds an ending, after all before it in order.
    fn add(&mut self, ending: Ending) -> Result<(), AllocError> {
        if !self.ends_with(ending) {
            self.begin(ending)?;
        }
        self.nets.push(ending.2)?;
        self.note(ending);
        Ok(())
    }

    /// Gives the last terminal the last net.
    fn note(&mut self, ending: Ending) {
        let at = self.all.len().saturating_sub(1);
        if let Some(last) = self.all.get_mut(at) {
            last.end = self.nets.len();
        }
        if let (false, Some(source)) = (ending.1.0, self.sources.get_mut(ending.2 as usize)) {
            *source = at;
        }
    }

    pub(crate) fn nx(&self) -> u32 {
        self.nx
    }

    pub(crate) fn ny(&self) -> u32 {
        self.ny
    }

    /// How many nets there are.
    pub(crate) fn net_count(&self) -> u32 {
        self.net_count
    }

    /// All terminals.
    pub(crate) fn all(&self) -> &[Terminal] {
        &self.all
    }

    /// The terminal of this index.
    pub(crate) fn get(&self, at: usize) -> Option<Terminal> {
        self.all.get(at).copied()
    }

    /// The nets of a terminal.
    pub(crate) fn nets_of(&self, terminal: Terminal) -> &[u32] {
        match self.nets.get(terminal.first..terminal.end) {
            Some(nets) => nets,
            None => &[],
        }
    }

    /// The index of a net's source.
    pub(crate) fn source_of(&self, net: u32) -> usize {
        match self.sources.get(net as usize) {
            Some(at) => *at,
            None => 0,
        }
    }

    /// The index of the first terminal at (x, y), and that after the last.
    pub(crate) fn span(&self, x: u32, y: u32) -> (usize, usize) {
        match self.spans.get(self.spot(x, y)) {
            Some(span) => *span,
            None => (0, 0),
        }
    }
}
