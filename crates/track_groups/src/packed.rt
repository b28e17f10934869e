//! Groups as they are kept: in 16 bytes each, so that four of them fit in a cache line.

ghost use Rattle.std.specs.Prelude.{◌≡◌, ◌≤◌};
ghost use Rattle.track_groups.specs.kept.Fields.{FitsBytes, IsSmall};

use crate::group::Group;
use routing_problem::{Kind, Span};
use std::marker::Model;

/// A number, or the greatest of a byte where it doesn't fit.
fn byte(number: u32) -> u8
    ensures { number ≤ 255 → result ≡ number }
{
    number.min(255) as u8
}

/// A group as it is kept. Contracts see the group.
#[derive(Clone, Copy, Debug, Drop)]
pub(crate) struct PackedGroup {
    base: u32,
    stride: u32,
    x1: u8,
    y1: u8,
    x2: u8,
    y2: u8,
    reach: u8,
    tracks: u8,
    kind: Kind,
}

impl Model for PackedGroup {
    ghost use Rattle.track_groups.specs.declared.group.Group.{Group};

    ghost Value = { Group };

    ghost use Rattle.track_groups.specs.kept.Packed.{group_in};

    ghost view = { group_in };

    ghost inverse = { λ g. record {
      base = g.base;
      stride = g.stride;
      x1 = g.span.x1;
      y1 =
          g.span.y1;
      x2 = g.span.x2;
      y2 = g.span.y2;
      reach = g.reach;
      tracks = g.tracks;
      kind =
          g.kind;
    } };
}

impl PackedGroup {
    /// A group; what doesn't fit is cut.
    pub(crate) fn new(group: Group) -> PackedGroup
        ensures small { IsSmall group → IsSmall result }
        ensures whole { IsSmall group → FitsBytes group → result ≡ group }
    {
        PackedGroup {
            base: group.base,
            stride: group.stride,
            x1: byte(group.span.x1),
            y1: byte(group.span.y1),
            x2: byte(group.span.x2),
            y2: byte(group.span.y2),
            reach: byte(group.reach),
            tracks: byte(group.tracks),
            kind: group.kind,
        }
    }

    /// The group.
    #[inline(always)]
    pub(crate) fn group(self) -> Group
        ensures { result ≡ self }
    {
        Group {
            kind: self.kind,
            span: Span {
                x1: u32::from(self.x1),
                y1: u32::from(self.y1),
                x2: u32::from(self.x2),
                y2: u32::from(self.y2),
            },
            reach: u32::from(self.reach),
            base: self.base,
            stride: self.stride,
            tracks: u32::from(self.tracks),
        }
    }
}
