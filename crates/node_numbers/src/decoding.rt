//! The node of a number, and its kind, by arithmetic. Functions that make a node are inlined, so
//! that it doesn't pass through memory.

ghost use Rattle.std.specs.Prelude.{◌≡◌, ◌+◌, ◌-◌, ◌*◌, ◌/◌, ◌%◌, ◌≤◌, ◌<◌, true, false, length, slice_get, Some};
ghost use Rattle.std.specs.Option.{option_map};
ghost use Rattle.arch_file.specs.Architecture.{most_pins};
ghost use Rattle.node_numbers.specs.Numbering.{is_terminal, block_numbers};
ghost use Rattle.node_numbers.specs.kept.Columns.{column_length, columns_length, inner_rows_length, inner_place_length, terminals_length};
ghost use Rattle.channel_tables.specs.Fabric.{IsFabric, is_between};
ghost use Rattle.node_numbers.specs.Nodes.{node_at, node_count_of};
ghost use Rattle.node_numbers.specs.Starts.{kind_length, kind_start, column_start};
ghost use Rattle.node_numbers.specs.kept.Numbers.{IsBlock};
ghost use Rattle.node_numbers.specs.kept.Strides.{stride_at, column_stride};

use crate::block::{BlockNumbers, count_at_block, numbers};
use crate::divisor::Divisor;
use crate::numbers::NodeNumbers;
use channel_tables::{Axis, Kind, Layout, Node};

/// A node in a column or a row: the line, and how many nodes come before it there.
#[derive(Clone, Copy, Debug)]
struct LinePlace {
    line: u32,
    rest: u32,
}

/// Finds the column of the terminal or pin after `at` others, if a block has `count`.
#[tactic(auto, unfolding(crate::specs::kept::Columns::columns_length, crate::specs::kept::Columns::column_length, crate::specs::kept::Columns::terminals_length))]
fn column_found(layout: &Layout, count: u32, at: u32) -> LinePlace
    requires few { count ≤ most_pins }
    requires within { at < terminals_length layout.now count }
    ensures within { result.line ≤ layout.now.nx + 1 }
    ensures before { columns_length layout.now count result.line + result.rest ≡ at }
    ensures rest { result.rest < column_length layout.now count result.line }
{
    let (nx, ny) = (layout.nx(), layout.ny());
    let pads = layout.architecture().io_rat();
    let side = ny * pads;
    let inner = 2 * pads + ny * count;
    if at < side {
        return LinePlace { line: 0, rest: at };
    }
    let behind = at - side;
    let passed = behind / inner;
    if passed < nx {
        LinePlace {
            line: passed + 1,
            rest: behind % inner,
        }
    } else {
        LinePlace {
            line: nx + 1,
            rest: behind - nx * inner,
        }
    }
}

/// Finds the row of the terminal or pin after `rest` others in a column of blocks.
fn inner_row_found(layout: &Layout, count: u32, rest: u32) -> LinePlace
    requires few { count ≤ most_pins }
    requires within { rest < 2 * layout.now.architecture.io_rat + layout.now.ny * count }
    ensures within { result.line ≤ layout.now.ny + 1 }
    ensures before { inner_rows_length layout.now count result.line + result.rest ≡ rest }
    ensures rest { result.rest < inner_place_length layout.now count result.line }
{
    let ny = layout.ny();
    let pads = layout.architecture().io_rat();
    if rest < pads {
        return LinePlace { line: 0, rest };
    }
    let behind = rest - pads;
    if behind < ny * count {
        LinePlace {
            line: behind / count + 1,
            rest: behind % count,
        }
    } else {
        LinePlace {
            line: ny + 1,
            rest: behind - ny * count,
        }
    }
}

/// Finds the row of a pad in a column beside the blocks.
fn side_row_found(layout: &Layout, rest: u32) -> LinePlace
    requires { rest < layout.now.ny * layout.now.architecture.io_rat }
    ensures from { 1 ≤ result.line }
    ensures within { result.line ≤ layout.now.ny }
    ensures before { (result.line - 1) * layout.now.architecture.io_rat + result.rest ≡ rest }
    ensures rest { result.rest < layout.now.architecture.io_rat }
{
    let pads = layout.architecture().io_rat();
    LinePlace {
        line: rest / pads + 1,
        rest: rest % pads,
    }
}

/// Returns whether column `x` has blocks.
fn has_blocks(layout: &Layout, x: u32) -> bool
    ensures { result ≡ is_between 1 layout.now.nx x }
{
    1 <= x && x <= layout.nx()
}

/// Returns whether row `y` has blocks.
fn is_row_of_blocks(layout: &Layout, y: u32) -> bool
    ensures { result ≡ is_between 1 layout.now.ny y }
{
    1 <= y && y <= layout.ny()
}

/// Returns the number of the node after `index` others at row `y` of a column of blocks.
fn inner_number(layout: &Layout, block: &BlockNumbers, kind: Kind, y: u32, index: u32) -> u32
    requires block { IsBlock layout.now block.now }
    requires within { index < inner_place_length layout.now
        (length (block_numbers layout.now kind)) y }
    ensures block { is_between 1 layout.now.ny y ≡ true
        → slice_get (block_numbers layout.now kind) index ≡ Some result }
    ensures pad { is_between 1 layout.now.ny y ≡ false → result ≡ index }
    ensures few { is_between 1 layout.now.ny y ≡ false → index < layout.now.architecture.io_rat }
{
    if is_row_of_blocks(layout, y) {
        numbers(block, kind)[index as usize]
    } else {
        index
    }
}

/// Returns the terminal or pin after `rest` others in a column of blocks.
#[inline(always)]
fn in_block_column(layout: &Layout, block: &BlockNumbers, kind: Kind, x: u32, rest: u32) -> Node
    requires block { IsBlock layout.now block.now }
    requires terminal { is_terminal kind ≡ true }
    requires inside { is_between 1 layout.now.nx x ≡ true }
    requires within { rest < 2 * layout.now.architecture.io_rat
        + layout.now.ny * length (block_numbers layout.now kind) }
    ensures { node_at layout.now (column_start layout.now kind x + rest) ≡ Some result }
{
    let row = inner_row_found(layout, count_at_block(block, kind), rest);
    let number = inner_number(layout, block, kind, row.line, row.rest);
    Node {
        kind,
        x,
        y: row.line,
        number,
    }
}

/// Returns the pad after `rest` others in a column beside the blocks.
#[inline(always)]
fn in_side_column(layout: &Layout, kind: Kind, x: u32, rest: u32) -> Node
    requires terminal { is_terminal kind ≡ true }
    requires column { x ≤ layout.now.nx + 1 }
    requires outside { is_between 1 layout.now.nx x ≡ false }
    requires within { rest < layout.now.ny * layout.now.architecture.io_rat }
    ensures { node_at layout.now (column_start layout.now kind x + rest) ≡ Some result }
{
    let row = side_row_found(layout, rest);
    Node {
        kind,
        x,
        y: row.line,
        number: row.rest,
    }
}

/// Finds the column of the terminal or pin after `at` others of its kind.
#[tactic(auto, using(crate::proofs::PlaceStarts::terminal_length, crate::proofs::NodesFound::terminal_column))]
fn column_of(layout: &Layout, block: &BlockNumbers, kind: Kind, at: u32) -> LinePlace
    requires block { IsBlock layout.now block.now }
    requires terminal { is_terminal kind ≡ true }
    requires within { at < kind_length layout.now kind }
    ensures within { result.line ≤ layout.now.nx + 1 }
    ensures before { column_start layout.now kind result.line + result.rest
        ≡ kind_start layout.now kind + at }
    ensures rest { result.rest < column_length layout.now
        (length (block_numbers layout.now kind)) result.line }
{
    column_found(layout, count_at_block(block, kind), at)
}

/// Returns the terminal or pin after `at` others of its kind.
#[inline(always)]
#[tactic(auto, using(crate::proofs::NodesFound::inner_column_length, crate::proofs::NodesFound::side_column_length))]
fn terminal_found(layout: &Layout, block: &BlockNumbers, kind: Kind, at: u32) -> Node
    requires block { IsBlock layout.now block.now }
    requires terminal { is_terminal kind ≡ true }
    requires within { at < kind_length layout.now kind }
    ensures { node_at layout.now (kind_start layout.now kind + at) ≡ Some result }
{
    let column = column_of(layout, block, kind, at);
    if has_blocks(layout, column.line) {
        in_block_column(layout, block, kind, column.line, column.rest)
    } else {
        in_side_column(layout, kind, column.line, column.rest)
    }
}

impl NodeNumbers {
    /// Divides a number by the count of rows of channels.
    fn by_rows(&self, at: u32) -> u32
        ensures { result ≡ at / (self.now.ny + 1) }
    {
        self.strides.rows.quotient(at)
    }

    /// Divides a number by the count of wires that begin at place `x` of a channel above a row.
    /// Returns quotient and rest.
    #[tactic(auto, using(channel_tables::proofs::Ranges::length_below, channel_tables::proofs::Ranges::get_below))]
    fn by_place(&self, x: u32, rest: u32) -> (u32, u32)
        requires { x ≤ self.now.nx }
        ensures quotient { result.0 ≡ rest / stride_at self.now x }
        ensures rest { result.1 ≡ rest % stride_at self.now x }
    {
        let places: &[Divisor] = &self.strides.places;
        places[x as usize].split(rest)
    }

    /// Divides a number by the count of wires right of a column. Returns quotient and rest.
    fn by_column(&self, at: u32) -> (u32, u32)
        ensures quotient { result.0 ≡ at / column_stride self.now }
        ensures rest { result.1 ≡ at % column_stride self.now }
    {
        self.strides.column.split(at)
    }

    /// Returns the wire above a row after `at` others.
    #[inline(always)]
    fn above_found(&self, at: u32) -> Node
        requires { at < kind_length self.now Kind.Chanx }
        ensures { node_at self.now (kind_start self.now Kind.Chanx + at) ≡ Some result }
    {
        let rows = self.layout().ny() + 1;
        let x = u32::from(self.tables.beginning_at(Axis::Row, self.by_rows(at)).place);
        let before = self.tables.wires_before(Axis::Row, x);
        let (y, index) = self.by_place(x, at - rows * before);
        let track = self.tables.beginning_at(Axis::Row, before + index).track;
        Node {
            kind: Kind::Chanx,
            x,
            y,
            number: u32::from(track),
        }
    }

    /// Returns the wire right of a column after `at` others.
    #[inline(always)]
    fn right_found(&self, at: u32) -> Node
        requires { at < kind_length self.now Kind.Chany }
        ensures { node_at self.now (kind_start self.now Kind.Chany + at) ≡ Some result }
    {
        let (x, index) = self.by_column(at);
        let wire = self.tables.beginning_at(Axis::Column, index);
        Node {
            kind: Kind::Chany,
            x,
            y: u32::from(wire.place),
            number: u32::from(wire.track),
        }
    }

    /// Returns the terminal or pin after `at` others of its kind.
    #[inline(always)]
    fn terminal_of(&self, kind: Kind, at: u32) -> Node
        requires terminal { is_terminal kind ≡ true }
        requires within { at < kind_length self.now kind }
        ensures { node_at self.now (kind_start self.now kind + at) ≡ Some result }
    {
        terminal_found(self.layout(), &self.block, kind, at)
    }

    /// Returns the node of a number.
    #[inline(always)]
    #[tactic(auto, using(crate::proofs::NodesByPlace::node_count_by_kinds, crate::proofs::NodesFound::none_past), unfolding(crate::specs::Starts::kind_start))]
    pub(crate) fn node_of(&self, id: u32) -> Option<Node>
        ensures node { result ≡ node_at self.now id }
        ensures limits { IsFabric self.now }
    {
        if id >= self.node_count() {
            return None;
        }
        Some(self.node_below(id))
    }

    /// Returns the node of a number below the count of nodes.
    #[inline(always)]
    #[tactic(auto, using(crate::proofs::NodesByPlace::node_count_by_kinds), unfolding(crate::specs::Starts::kind_start))]
    fn node_below(&self, id: u32) -> Node
        requires { id < node_count_of self.now }
        ensures { node_at self.now id ≡ Some result }
    {
        let chany = self.kind_start(Kind::Chany);
        if id >= chany {
            return self.right_found(id - chany);
        }
        let chanx = self.kind_start(Kind::Chanx);
        if id >= chanx {
            return self.above_found(id - chanx);
        }
        let ipin = self.kind_start(Kind::Ipin);
        if id >= ipin {
            return self.terminal_of(Kind::Ipin, id - ipin);
        }
        let opin = self.kind_start(Kind::Opin);
        if id >= opin {
            return self.terminal_of(Kind::Opin, id - opin);
        }
        let sink = self.kind_start(Kind::Sink);
        if id >= sink {
            return self.terminal_of(Kind::Sink, id - sink);
        }
        self.terminal_of(Kind::Source, id)
    }

    /// Returns the kind of the node of a number.
    #[tactic(auto, using(crate::proofs::NodesFound::none_past))]
    pub(crate) fn kind_of(&self, id: u32) -> Option<Kind>
        ensures { result ≡ option_map (λ n. n.kind) (node_at self.now id) }
    {
        if id >= self.node_count() {
            return None;
        }
        Some(self.kind_below(id))
    }

    /// Returns the kind of the node of a number below the count of nodes.
    fn kind_below(&self, id: u32) -> Kind
        requires { id < node_count_of self.now }
        ensures { option_map (λ n. n.kind) (node_at self.now id) ≡ Some result }
    {
        if id >= self.kind_start(Kind::Chany) {
            return Kind::Chany;
        }
        if id >= self.kind_start(Kind::Chanx) {
            return Kind::Chanx;
        }
        if id >= self.kind_start(Kind::Ipin) {
            return Kind::Ipin;
        }
        if id >= self.kind_start(Kind::Opin) {
            return Kind::Opin;
        }
        if id >= self.kind_start(Kind::Sink) {
            return Kind::Sink;
        }
        Kind::Source
    }
}
