//! The refusal of conversions.

/// The error of a conversion between [`SignedDuration`](crate::SignedDuration) and std's
/// `Duration`, if the target lacks the value.
#[derive(Clone, Copy, Debug, PartialEq, Eq)]
pub struct ConversionRange;
