//! A kind of local time.
ghost use Rattle.std.specs.Prelude.{◌≡◌, ◌↔◌, IsTrue};
ghost use Rattle.calendar_values.specs.Offsets.{IsOffset};

/// A kind of local time, which clocks show from one transition to the next.
#[derive(Clone, Copy)]
pub struct TimeType {
    /// Seconds east of UTC, from -93599 to 93599.
    pub offset: i32,
    /// Whether it is daylight saving time.
    pub is_daylight: bool,
    /// The number of its abbreviation in the list of the zone, such as that of `CEST`. A file has
    /// at most 256 of them, and its rule two more.
    pub designation: u16,
    pub ghost offset_in: { IsOffset offset },
}

impl TimeType {
    // Whether the two are one kind.
    pub(crate) fn is(self, other: TimeType) -> bool
        ensures { IsTrue result ↔ (self ≡ other) }
    {
        self.offset == other.offset
            && self.is_daylight == other.is_daylight
            && self.designation == other.designation
    }
}
