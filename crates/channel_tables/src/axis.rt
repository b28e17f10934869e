//! The axis of a channel.

ghost use Rattle.std.specs.Prelude.{◌≡◌};
ghost use Rattle.channel_tables.specs.Axes.{across};

/// The axis of a channel: above a row, where its places are columns, or right of a column, where
/// they are rows.
#[derive(Clone, Copy, Debug)]
pub enum Axis {
    Row,
    Column,
}

impl Axis {
    /// The axis of the channels that cross it.
    #[inline(always)]
    pub fn across(self) -> Axis
        ensures { result ≡ across self }
    {
        match self {
            Axis::Row => Axis::Column,
            Axis::Column => Axis::Row,
        }
    }
}
