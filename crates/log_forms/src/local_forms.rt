//! The items of forms with a year and no offset.

use crate::form_items::{
    BARE_DAY, BARE_HOUR, DAY, FRACTION, HOUR, MINUTE, MONTH, MONTH_NAME, NINE_DIGITS, SECOND,
    SHORT_YEAR, SIX_DIGITS, SPACED_DAY, SPACED_HOUR, THREE_DIGITS, WEEKDAY, YEAR,
};
use format_descriptions::Item;

/// As `29/Feb/2024:12:00:00.123`.
pub(crate) const HAPROXY: [Item; 14] = [
    DAY,
    Item::Byte(b'/'),
    MONTH_NAME,
    Item::Byte(b'/'),
    YEAR,
    Item::Byte(b':'),
    HOUR,
    Item::Byte(b':'),
    MINUTE,
    Item::Byte(b':'),
    SECOND,
    Item::Optional(2),
    Item::Byte(b'.'),
    FRACTION,
];

/// As `2024/02/29 12:00:00`.
pub(crate) const NGINX_ERROR: [Item; 14] = [
    YEAR,
    Item::Byte(b'/'),
    MONTH,
    Item::Byte(b'/'),
    DAY,
    Item::Byte(b' '),
    HOUR,
    Item::Byte(b':'),
    MINUTE,
    Item::Byte(b':'),
    SECOND,
    Item::Optional(2),
    Item::Byte(b'.'),
    FRACTION,
];

/// As `2024-02-29 12:00:00,123`.
pub(crate) const LOCAL_COMMA: [Item; 29] = [
    YEAR,
    Item::First(1),
    Item::Byte(b'-'),
    Item::Or(1),
    Item::Byte(b'/'),
    MONTH,
    Item::First(1),
    Item::Byte(b'-'),
    Item::Or(1),
    Item::Byte(b'/'),
    DAY,
    Item::First(1),
    Item::Byte(b'T'),
    Item::Or(1),
    Item::Byte(b't'),
    Item::Or(1),
    Item::Byte(b' '),
    HOUR,
    Item::Byte(b':'),
    MINUTE,
    Item::Byte(b':'),
    SECOND,
    Item::Byte(b','),
    Item::First(1),
    NINE_DIGITS,
    Item::Or(1),
    SIX_DIGITS,
    Item::Or(1),
    THREE_DIGITS,
];

/// As `2024-02-29 12:00:00.123`.
pub(crate) const LOCAL: [Item; 24] = [
    YEAR,
    Item::Byte(b'-'),
    MONTH,
    Item::Byte(b'-'),
    DAY,
    Item::First(1),
    Item::Byte(b'T'),
    Item::Or(1),
    Item::Byte(b't'),
    Item::Or(1),
    Item::Byte(b' '),
    Item::Or(1),
    Item::Byte(b'\t'),
    Item::First(1),
    SPACED_HOUR,
    Item::Or(1),
    BARE_HOUR,
    Item::Byte(b':'),
    MINUTE,
    Item::Byte(b':'),
    SECOND,
    Item::Optional(2),
    Item::Byte(b'.'),
    FRACTION,
];

/// As `2024-02-29  12:00:00`.
pub(crate) const TWO_SPACES: [Item; 24] = [
    YEAR,
    Item::Byte(b'-'),
    MONTH,
    Item::Byte(b'-'),
    DAY,
    Item::Byte(b' '),
    Item::Byte(b' '),
    HOUR,
    Item::Byte(b':'),
    MINUTE,
    Item::Byte(b':'),
    SECOND,
    Item::Optional(11),
    Item::First(2),
    Item::Byte(b'.'),
    FRACTION,
    Item::Or(7),
    Item::Byte(b','),
    Item::First(1),
    NINE_DIGITS,
    Item::Or(1),
    SIX_DIGITS,
    Item::Or(1),
    THREE_DIGITS,
];

/// As `Thu Feb 29 12:00:00.123456 2024`.
pub(crate) const APACHE_ERROR: [Item; 19] = [
    WEEKDAY,
    Item::Byte(b' '),
    MONTH_NAME,
    Item::Byte(b' '),
    Item::First(1),
    SPACED_DAY,
    Item::Or(1),
    BARE_DAY,
    Item::Byte(b' '),
    HOUR,
    Item::Byte(b':'),
    MINUTE,
    Item::Byte(b':'),
    SECOND,
    Item::Optional(2),
    Item::Byte(b'.'),
    FRACTION,
    Item::Byte(b' '),
    YEAR,
];

/// As `29 Feb 2024 12:00:00.123`.
pub(crate) const REDIS: [Item; 14] = [
    DAY,
    Item::Byte(b' '),
    MONTH_NAME,
    Item::Byte(b' '),
    YEAR,
    Item::Byte(b' '),
    HOUR,
    Item::Byte(b':'),
    MINUTE,
    Item::Byte(b':'),
    SECOND,
    Item::Optional(2),
    Item::Byte(b'.'),
    FRACTION,
];

/// As `29-Feb-2024 12:00:00.123`.
pub(crate) const TOMCAT: [Item; 14] = [
    DAY,
    Item::Byte(b'-'),
    MONTH_NAME,
    Item::Byte(b'-'),
    YEAR,
    Item::Byte(b' '),
    HOUR,
    Item::Byte(b':'),
    MINUTE,
    Item::Byte(b':'),
    SECOND,
    Item::Optional(2),
    Item::Byte(b'.'),
    FRACTION,
];

/// As `29-Feb-2024::12:00:00`.
pub(crate) const ERLANG: [Item; 15] = [
    DAY,
    Item::Byte(b'-'),
    MONTH_NAME,
    Item::Byte(b'-'),
    YEAR,
    Item::Byte(b':'),
    Item::Byte(b':'),
    HOUR,
    Item::Byte(b':'),
    MINUTE,
    Item::Byte(b':'),
    SECOND,
    Item::Optional(2),
    Item::Byte(b'.'),
    FRACTION,
];

/// As `2024-02-29-12.00.00.123456`.
pub(crate) const BGL: [Item; 14] = [
    YEAR,
    Item::Byte(b'-'),
    MONTH,
    Item::Byte(b'-'),
    DAY,
    Item::Byte(b'-'),
    HOUR,
    Item::Byte(b'.'),
    MINUTE,
    Item::Byte(b'.'),
    SECOND,
    Item::Optional(2),
    Item::Byte(b'.'),
    FRACTION,
];

/// As `Feb 29 12:00:00 2024`.
pub(crate) const SYSLOG_YEAR: [Item; 17] = [
    MONTH_NAME,
    Item::Byte(b' '),
    Item::First(1),
    SPACED_DAY,
    Item::Or(1),
    BARE_DAY,
    Item::Byte(b' '),
    HOUR,
    Item::Byte(b':'),
    MINUTE,
    Item::Byte(b':'),
    SECOND,
    Item::Optional(2),
    Item::Byte(b'.'),
    FRACTION,
    Item::Byte(b' '),
    YEAR,
];

/// As `Feb 29 2024 12:00:00`.
pub(crate) const ASA: [Item; 17] = [
    MONTH_NAME,
    Item::Byte(b' '),
    Item::First(1),
    SPACED_DAY,
    Item::Or(1),
    BARE_DAY,
    Item::Byte(b' '),
    YEAR,
    Item::Byte(b' '),
    HOUR,
    Item::Byte(b':'),
    MINUTE,
    Item::Byte(b':'),
    SECOND,
    Item::Optional(2),
    Item::Byte(b'.'),
    FRACTION,
];

/// As `2024 Feb 29 12:00:00`.
pub(crate) const NXOS: [Item; 17] = [
    YEAR,
    Item::Byte(b' '),
    MONTH_NAME,
    Item::Byte(b' '),
    Item::First(1),
    SPACED_DAY,
    Item::Or(1),
    BARE_DAY,
    Item::Byte(b' '),
    HOUR,
    Item::Byte(b':'),
    MINUTE,
    Item::Byte(b':'),
    SECOND,
    Item::Optional(2),
    Item::Byte(b'.'),
    FRACTION,
];

/// As `29/Feb/2024 12:00:00`.
pub(crate) const DJANGO: [Item; 11] = [
    DAY,
    Item::Byte(b'/'),
    MONTH_NAME,
    Item::Byte(b'/'),
    YEAR,
    Item::Byte(b' '),
    HOUR,
    Item::Byte(b':'),
    MINUTE,
    Item::Byte(b':'),
    SECOND,
];

/// As `2024.02.29 12:00:00.123456`.
pub(crate) const CLICKHOUSE: [Item; 14] = [
    YEAR,
    Item::Byte(b'.'),
    MONTH,
    Item::Byte(b'.'),
    DAY,
    Item::Byte(b' '),
    HOUR,
    Item::Byte(b':'),
    MINUTE,
    Item::Byte(b':'),
    SECOND,
    Item::Optional(2),
    Item::Byte(b'.'),
    FRACTION,
];

/// As `02/29/2024-12:00:00.123456`.
pub(crate) const SURICATA: [Item; 13] = [
    MONTH,
    Item::Byte(b'/'),
    DAY,
    Item::Byte(b'/'),
    YEAR,
    Item::Byte(b'-'),
    HOUR,
    Item::Byte(b':'),
    MINUTE,
    Item::Byte(b':'),
    SECOND,
    Item::Byte(b'.'),
    FRACTION,
];

/// As `I20240229 12:00:00.123456`.
pub(crate) const GLOG: [Item; 11] = [
    YEAR,
    MONTH,
    DAY,
    Item::Byte(b' '),
    HOUR,
    Item::Byte(b':'),
    MINUTE,
    Item::Byte(b':'),
    SECOND,
    Item::Byte(b'.'),
    FRACTION,
];

/// As `240229 12:00:00`.
pub(crate) const MYSQL_5_6: [Item; 9] = [
    SHORT_YEAR,
    MONTH,
    DAY,
    Item::Byte(b' '),
    SPACED_HOUR,
    Item::Byte(b':'),
    MINUTE,
    Item::Byte(b':'),
    SECOND,
];

/// As `240229 120000`.
pub(crate) const HDFS: [Item; 7] = [
    SHORT_YEAR,
    MONTH,
    DAY,
    Item::Byte(b' '),
    HOUR,
    MINUTE,
    SECOND,
];

/// As `24/02/29 12:00:00`.
pub(crate) const SPARK: [Item; 11] = [
    SHORT_YEAR,
    Item::Byte(b'/'),
    MONTH,
    Item::Byte(b'/'),
    DAY,
    Item::Byte(b' '),
    HOUR,
    Item::Byte(b':'),
    MINUTE,
    Item::Byte(b':'),
    SECOND,
];
