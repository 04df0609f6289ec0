//! The items of forms without a year, and of counts.

use crate::form_items::{
    BARE_DAY, DAY, FRACTION, HOUR, MINUTE, MONTH, MONTH_NAME, SECOND, SPACED_DAY, UNIX_MICROSECOND,
    UNIX_MILLISECOND, UNIX_NANOSECOND, UNIX_SECOND,
};
use format_descriptions::{Component, Item};

/// As `<34>Feb 29 12:00:00`.
pub(crate) const RFC3164: [Item; 15] = [
    MONTH_NAME,
    Item::Byte(b' '),
    Item::First(1),
    SPACED_DAY,
    Item::Or(1),
    BARE_DAY,
    Item::Byte(b' '),
    HOUR,
    Item::Byte(b':'),
    MINUTE,
    Item::Byte(b':'),
    SECOND,
    Item::Optional(2),
    Item::Byte(b'.'),
    FRACTION,
];

/// As `Feb 29 12:00:00`.
pub(crate) const SYSLOG: [Item; 15] = [
    MONTH_NAME,
    Item::Byte(b' '),
    Item::First(1),
    SPACED_DAY,
    Item::Or(1),
    BARE_DAY,
    Item::Byte(b' '),
    HOUR,
    Item::Byte(b':'),
    MINUTE,
    Item::Byte(b':'),
    SECOND,
    Item::Optional(2),
    Item::Byte(b'.'),
    FRACTION,
];

/// As `I0229 12:00:00.123456`.
pub(crate) const KLOG: [Item; 11] = [
    MONTH,
    DAY,
    Item::Byte(b' '),
    HOUR,
    Item::Byte(b':'),
    MINUTE,
    Item::Byte(b':'),
    SECOND,
    Item::Optional(2),
    Item::Byte(b'.'),
    FRACTION,
];

/// As `02-29 12:00:00.123`.
pub(crate) const ANDROID: [Item; 12] = [
    MONTH,
    Item::Byte(b'-'),
    DAY,
    Item::Byte(b' '),
    HOUR,
    Item::Byte(b':'),
    MINUTE,
    Item::Byte(b':'),
    SECOND,
    Item::Optional(2),
    Item::Byte(b'.'),
    FRACTION,
];

/// As `*Feb 29 12:00:00.123`.
pub(crate) const CISCO: [Item; 15] = [
    MONTH_NAME,
    Item::Byte(b' '),
    Item::First(1),
    SPACED_DAY,
    Item::Or(1),
    BARE_DAY,
    Item::Byte(b' '),
    HOUR,
    Item::Byte(b':'),
    MINUTE,
    Item::Byte(b':'),
    SECOND,
    Item::Optional(2),
    Item::Byte(b'.'),
    FRACTION,
];

/// As `29 Feb 12:00:00.123`.
pub(crate) const REDIS_2_8: [Item; 12] = [
    DAY,
    Item::Byte(b' '),
    MONTH_NAME,
    Item::Byte(b' '),
    HOUR,
    Item::Byte(b':'),
    MINUTE,
    Item::Byte(b':'),
    SECOND,
    Item::Optional(2),
    Item::Byte(b'.'),
    FRACTION,
];

/// As `1709188200.123`.
pub(crate) const UNIX: [Item; 4] = [UNIX_SECOND, Item::Optional(2), Item::Byte(b'.'), FRACTION];

/// As `1709188200123`.
pub(crate) const UNIX_MS: [Item; 1] = [UNIX_MILLISECOND];

/// As `1709188200123456`.
pub(crate) const UNIX_US: [Item; 1] = [UNIX_MICROSECOND];

/// As `1709188200123456789`.
pub(crate) const UNIX_NS: [Item; 1] = [UNIX_NANOSECOND];

/// The items before a stamp, as in `<34>Feb 29 12:00:00`.
pub(crate) const RFC3164_LEAD: [Item; 3] = [
    Item::Byte(b'<'),
    Item::Part(Component::IgnoreDigits),
    Item::Byte(b'>'),
];

/// The items before a stamp, as in `I0229 12:00:00.123456`.
pub(crate) const KLOG_LEAD: [Item; 8] = [
    Item::First(1),
    Item::Byte(b'I'),
    Item::Or(1),
    Item::Byte(b'W'),
    Item::Or(1),
    Item::Byte(b'E'),
    Item::Or(1),
    Item::Byte(b'F'),
];

/// The items before a stamp, as in `*Feb 29 12:00:00.123`.
pub(crate) const CISCO_LEAD: [Item; 4] = [
    Item::First(1),
    Item::Byte(b'*'),
    Item::Or(1),
    Item::Byte(b'.'),
];
