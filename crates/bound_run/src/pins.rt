//! The pins that a cut gives up, by the names of their blocks.

ghost use Rattle.std.specs.Prelude.{◌≡◌, false, slice_get, slice_index_or};
ghost use Rattle.std.specs.Option.{option_map_or};
ghost use Rattle.std.specs.List.{flat_map};
ghost use Rattle.text_output.specs.Printing.{PrintsTo};
ghost use Rattle.net_file.specs.Connections.{no_block};
ghost use Rattle.net_file.specs.Judge.{is_logic_block};
ghost use Rattle.place_file.specs.Placement.{kind_at};
ghost use Rattle.bound_run.specs.CutTexts.{block_of, has_pin, is_block_of, pin_by, pin_line, pin_text};

use net_file::{BlockKind, Netlist};
use place_file::Site;
use rr_graph::Node;
use run_inputs::PlacedNetlist;
use text_output::{ByteSink, Piece, Printer};

fn is_logic_block(kind: BlockKind) -> bool
    ensures { result ≡ is_logic_block kind }
{
    matches!(kind, BlockKind::LogicBlock)
}

/// Returns the kind of a block, or that of `no_block` past the last block.
fn kind_at(netlist: &Netlist<'_>, block: usize) -> BlockKind
    ensures { result ≡ kind_at netlist.now.blocks block }
{
    match netlist.blocks().get(block) {
        Some(block) => block.kind(),
        None => BlockKind::InputPad,
    }
}

/// Returns the name of a block, or an empty name past the last block.
fn name_of<'a>(netlist: &Netlist<'a>, block: usize) -> &'a [u8]
    ensures { result.now ≡ (slice_index_or netlist.now.blocks block no_block).name }
{
    match netlist.blocks().get(block) {
        Some(block) => block.name(),
        None => &[],
    }
}

/// Returns whether a block of this kind, at this site, has the pin.
fn has_pin(kind: BlockKind, site: Site, pin: Node) -> bool
    ensures { result ≡ has_pin kind site pin }
{
    (site.x == pin.x && site.y == pin.y) && (is_logic_block(kind) || site.subblk == pin.number)
}

/// Returns whether the block has the pin.
fn is_block_of(placed: &PlacedNetlist<'_>, pin: Node, block: usize) -> bool
    ensures { result ≡ is_block_of placed.now pin block }
{
    match placed.placement().site(block) {
        Some(site) => has_pin(kind_at(placed.netlist(), block), site, pin),
        None => false,
    }
}

/// Returns the block that has the pin, if there is one.
fn block_of(placed: &PlacedNetlist<'_>, pin: Node) -> Option<usize>
    ensures { result ≡ block_of placed.now pin }
{
    let count = placed.netlist().blocks().len();
    (0..count).find(|block| is_block_of(placed, pin, *block))
}

/// Prints the line of a pin of a block.
#[tactic(auto, unfolding(crate::specs::CutTexts::pin_line))]
fn put_line<W: ByteSink>(out: &mut Printer<'_, W>, name: &[u8], number: u32)
    ensures { PrintsTo W.ByteSink out.old out.new
        (pin_line name.now number) }
{
    out.put_pieces(&[
        Piece::Text(b"pin "),
        Piece::Text(name),
        Piece::Text(b" "),
        Piece::Number(number),
        Piece::Text(b"\n"),
    ]);
}

/// Prints the line of a pin, if a block has it.
fn put_by<W: ByteSink>(
    out: &mut Printer<'_, W>,
    netlist: &Netlist<'_>,
    number: u32,
    block: Option<usize>,
)
    ensures { PrintsTo W.ByteSink out.old out.new
        (pin_by netlist.now.blocks number block) }
{
    if let Some(block) = block {
        put_line(out, name_of(netlist, block), number);
    }
}

/// Prints the line of a pin.
fn put_pin<W: ByteSink>(out: &mut Printer<'_, W>, placed: &PlacedNetlist<'_>, pin: Node)
    ensures { PrintsTo W.ByteSink out.old out.new
        (pin_text placed.now pin) }
{
    let block = block_of(placed, pin);
    put_by(out, placed.netlist(), pin.number, block);
}

/// Prints the lines of these pins.
pub(crate) fn put_pins<W: ByteSink>(
    out: &mut Printer<'_, W>,
    placed: &PlacedNetlist<'_>,
    pins: &[Node],
)
    ensures { PrintsTo W.ByteSink out.old out.new
        (flat_map (pin_text placed.now) pins.now) }
{
    for pin in pins {
        put_pin(out, placed, *pin);
    }
}
