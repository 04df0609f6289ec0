//! The numbers of a text.

/// The numbers that a text of ISO 8601 spells, each as the text has it, and not yet tested for its
/// range. Contracts speak of them.
#[derive(Clone, Copy)]
pub struct IsoParts {
    /// Whether the sign of the year is `-`.
    pub is_before: bool,
    /// The year without its sign, of four digits or of six.
    pub year: u32,
    /// The month, of two digits, as the parts that follow.
    pub month: u8,
    /// The day of the month.
    pub day: u8,
    /// The hour.
    pub hour: u8,
    /// The minute.
    pub minute: u8,
    /// The second.
    pub second: u8,
    /// The first nine digits of the fraction, as nanoseconds.
    pub nanosecond: u32,
    /// Whether the sign of the offset is `-`.
    pub is_west: bool,
    /// The hours of the offset.
    pub offset_hour: u8,
    /// The minutes of the offset.
    pub offset_minute: u8,
    /// The seconds of the offset, 0 in a text that has none.
    pub offset_second: u8,
}
