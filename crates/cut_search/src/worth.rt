//! What cuts are compared by.

/// How many nets are cut, less the pins that are given up, for how many places.
#[derive(Clone, Copy, Debug)]
pub(crate) struct Worth {
    pub(crate) nets: u32,
    pub(crate) places: u32,
}

impl Worth {
    /// Whether it has more nets for each place than the other one.
    pub(crate) fn exceeds(self, other: Worth) -> bool {
        u64::from(self.nets) * u64::from(other.places)
            > u64::from(other.nets) * u64::from(self.places)
    }

    /// The nets for each place, in millionths; 0 if there is no place.
    pub(crate) fn millionths(self) -> u64 {
        if self.places == 0 {
            return 0;
        }
        u64::from(self.nets) * 1000000 / u64::from(self.places)
    }
}
