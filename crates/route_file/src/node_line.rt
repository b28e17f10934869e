//! The node that a line names.

ghost use Rattle.std.specs.Prelude.{◌≡◌, false, Some, IfSome, is_some};
ghost use Rattle.std.specs.Option.{option_map_or};
ghost use Rattle.rr_graph.specs.Nodes.{label_by};
ghost use Rattle.route_file.specs.kept.NodeTexts.{beginning_of, is_reported_at};
ghost use Rattle.route_file.specs.NodeLine.{kind_of, label_from, kind_on, label_on, same_label, takes, takes_both, is_wire, is_place_line, is_span_line, place_text, span_text, text_of, are_ends, node_reported};
ghost use Rattle.route_file.specs.NodeWords.{node_words};

use crate::node_words::NodeWords;
use rr_graph::{Device, Kind, Label, Node, Span};
use vpr_text::{Words, is_text};

/// What a node's line gives: its kind, its two ends, which may be one place, and what its number
/// counts.
#[derive(Clone, Copy, Debug)]
pub(crate) struct NodeText {
    pub(crate) kind: Kind,
    pub(crate) x1: u32,
    pub(crate) y1: u32,
    pub(crate) x2: u32,
    pub(crate) y2: u32,
    pub(crate) label: Label,
    pub(crate) number: u32,
}

/// The kind of node that a line's first word gives.
#[tactic(auto, unfolding(crate::specs::NodeLine::kind_of))]
fn kind_of(word: &[u8]) -> Option<Kind>
    ensures { result ≡ kind_of word.now }
{
    if is_text(word, "SOURCE") {
        return Some(Kind::Source);
    }
    if is_text(word, "SINK") {
        return Some(Kind::Sink);
    }
    if is_text(word, "OPIN") {
        return Some(Kind::Opin);
    }
    if is_text(word, "IPIN") {
        return Some(Kind::Ipin);
    }
    if is_text(word, "CHANX") {
        return Some(Kind::Chanx);
    }
    if is_text(word, "CHANY") {
        return Some(Kind::Chany);
    }
    None
}

/// What the number of a node counts, by the word before it.
#[tactic(auto, unfolding(crate::specs::NodeLine::label_from))]
fn label_from(word: &[u8]) -> Option<Label>
    ensures { result ≡ label_from word.now }
{
    if is_text(word, "Class:") {
        return Some(Label::Class);
    }
    if is_text(word, "Pin:") {
        return Some(Label::Pin);
    }
    if is_text(word, "Pad:") {
        return Some(Label::Pad);
    }
    if is_text(word, "Track:") {
        return Some(Label::Track);
    }
    None
}

fn kind_on(words: &NodeWords) -> Option<Kind>
    ensures { result ≡ kind_on words.now }
{
    kind_of(words.get(0)?)
}

fn label_on(words: &NodeWords, j: usize) -> Option<Label>
    ensures { result ≡ label_on words.now j }
{
    label_from(words.get(j)?)
}

fn same_label(a: Label, b: Label) -> bool
    ensures { result ≡ same_label a b }
{
    match (a, b) {
        (Label::Class, Label::Class) => true,
        (Label::Pin, Label::Pin) => true,
        (Label::Pad, Label::Pad) => true,
        (Label::Track, Label::Track) => true,
        _ => false,
    }
}

/// What the number of a node of this kind counts, at a logic block or at a pad.
fn label_by(kind: Kind, is_block: bool) -> Label
    ensures { result ≡ label_by kind is_block }
{
    match kind {
        Kind::Source | Kind::Sink => { if is_block { Label::Class } else { Label::Pad } }
        Kind::Opin | Kind::Ipin => { if is_block { Label::Pin } else { Label::Pad } }
        Kind::Chanx | Kind::Chany => Label::Track,
    }
}

/// Whether nodes of the kind have this label somewhere.
#[tactic(auto, unfolding(crate::specs::NodeLine::takes))]
fn takes(kind: Kind, label: Label) -> bool
    ensures { result ≡ takes kind label }
{
    same_label(label, label_by(kind, true)) || same_label(label, label_by(kind, false))
}

/// The kind of node that a line gives, and what word `j` says that its number counts, if nodes of
/// the kind have that label.
fn kind_and_label(words: &NodeWords, j: usize) -> Option<(Kind, Label)>
    ensures both { is_some result ≡ takes_both (kind_on words.now) (label_on words.now j) }
    ensures kind { IfSome result (λ p. kind_on words.now ≡ Some p.0) }
    ensures label { IfSome result (λ p. label_on words.now j ≡ Some p.1) }
{
    let (kind, label) = (kind_on(words)?, label_on(words, j)?);
    if takes(kind, label) {
        Some((kind, label))
    } else {
        None
    }
}

#[tactic(auto, unfolding(crate::specs::NodeLine::is_wire))]
fn is_wire(kind: Kind) -> bool
    ensures { result ≡ is_wire kind }
{
    match kind {
        Kind::Chanx | Kind::Chany => true,
        Kind::Source | Kind::Sink | Kind::Opin | Kind::Ipin => false,
    }
}

/// Whether the line begins as that of a wire.
fn begins_wire(words: &NodeWords) -> bool
    ensures { result ≡ option_map_or is_wire (kind_on words.now) false }
{
    match kind_on(words) {
        Some(kind) => is_wire(kind),
        None => false,
    }
}

/// The content of a line that names a node by one place.
#[tactic(auto, unfolding(crate::specs::NodeLine::is_place_line, crate::specs::NodeLine::place_text))]
fn place_text(words: &NodeWords) -> Option<NodeText>
    ensures line { is_some result ≡ is_place_line words.now }
    ensures text { IfSome result (λ t. t ≡ place_text words.now) }
{
    if words.len() != 5 {
        return None;
    }
    let (x, y) = (words.number(1)?, words.number(2)?);
    let (kind, label) = kind_and_label(words, 3)?;
    let number = words.number(4)?;
    Some(NodeText {
        kind,
        x1: x,
        y1: y,
        x2: x,
        y2: y,
        label,
        number,
    })
}

/// The content of a line that names a wire by its two ends.
#[tactic(auto, unfolding(crate::specs::NodeLine::is_span_line, crate::specs::NodeLine::span_text))]
fn span_text(words: &NodeWords) -> Option<NodeText>
    ensures line { is_some result ≡ is_span_line words.now }
    ensures text { IfSome result (λ t. t ≡ span_text words.now) }
{
    if words.len() != 8 || !begins_wire(words) {
        return None;
    }
    let (x1, y1) = (words.number(1)?, words.number(2)?);
    if !words.is(3, "to") {
        return None;
    }
    let (x2, y2) = (words.number(4)?, words.number(5)?);
    let (kind, label) = kind_and_label(words, 6)?;
    let number = words.number(7)?;
    Some(NodeText {
        kind,
        x1,
        y1,
        x2,
        y2,
        label,
        number,
    })
}

/// What the words of a node's line give.
#[tactic(auto, unfolding(crate::specs::NodeLine::text_of))]
fn text_in(words: &NodeWords) -> Option<NodeText>
    ensures { result ≡ text_of words.now }
{
    if let Some(text) = place_text(words) {
        return Some(text);
    }
    span_text(words)
}

/// What a line gives, if it is a node's line.
#[tactic(auto, using(crate::proofs::Reported::too_long))]
pub(crate) fn text_of(words: &Words) -> Option<NodeText>
    ensures { result ≡ text_of (node_words words.now) }
{
    match NodeWords::of_line(words.rest(0)) {
        Some(words) => text_in(&words),
        None => None,
    }
}

/// Whether the first and the last place of a node are the two ends, in either order.
#[tactic(auto, unfolding(crate::specs::NodeLine::are_ends))]
fn are_ends(span: Span, text: NodeText) -> bool
    ensures { result ≡ are_ends span text }
{
    (span.x1 == text.x1 && span.y1 == text.y1 && (span.x2 == text.x2 && span.y2 == text.y2))
        || (span.x1 == text.x2 && span.y1 == text.y2 && (span.x2 == text.x1 && span.y2 == text.y1))
}

/// Whether node `id` lies between the ends and has the label.
fn is_reported_at(device: &Device, text: NodeText, id: u32) -> bool
    ensures { result ≡ is_reported_at device.now text id }
{
    match device.described_node(id) {
        Some((_, span, label)) => are_ends(span, text) && same_label(label, text.label),
        None => false,
    }
}

/// The node that begins at the lower end.
fn beginning_of(text: NodeText) -> Node
    ensures { result ≡ beginning_of text }
{
    Node {
        kind: text.kind,
        x: text.x1.min(text.x2),
        y: text.y1.min(text.y2),
        number: text.number,
    }
}

/// The number of the node that is reported, if the device has it.
#[tactic(auto, using(crate::proofs::Reported::reported_yes, crate::proofs::Reported::reported_no, crate::proofs::Reported::reported_nowhere))]
pub(crate) fn node_reported(device: &Device, text: NodeText) -> Option<u32>
    ensures { result ≡ node_reported device.now text }
{
    let Some(id) = device.id(beginning_of(text)) else {
        return None;
    };
    if is_reported_at(device, text, id) {
        Some(id)
    } else {
        None
    }
}
