//! Forms by their names.
ghost use Rattle.std.specs.Prelude.{◌≡◌, ◌≤◌, length};
ghost use Rattle.log_forms.specs.Forms.{ahead_of, digits_of, form_name, items_of, lead_of, name_in, sample_of};

use crate::{local_forms, offset_forms, short_forms};
use format_descriptions::Item;

/// A form by its name.
#[derive(Clone, Copy, Debug, PartialEq, Eq)]
pub enum FormName {
    /// `rfc3339`, as `2024-02-29T12:00:00.5+05:30`.
    Rfc3339,
    /// `rfc3339-comma`, as `2024-02-29T12:00:00,5+05:30`.
    Rfc3339Comma,
    /// `journald`, as `2024-02-29T12:00:00+0530`.
    Journald,
    /// `rfc5424`, as `<34>1 2024-02-29T12:00:00.003Z`.
    Rfc5424,
    /// `rfc3164`, as `<34>Feb 29 12:00:00`.
    Rfc3164,
    /// `git`, as `2024-02-29 12:00:00 +0530`.
    Git,
    /// `postgres`, as `2024-02-29 12:00:00.123 UTC`.
    Postgres,
    /// `clf`, as `29/Feb/2024:12:00:00 +0530`.
    Clf,
    /// `git-default`, as `Thu Feb 29 12:00:00 2024 +0530`.
    GitDefault,
    /// `date`, as `Thu Feb 29 12:00:00 UTC 2024`.
    Date,
    /// `rfc2822`, as `Thu, 29 Feb 2024 12:00:00 +0530`.
    Rfc2822,
    /// `haproxy`, as `29/Feb/2024:12:00:00.123`.
    Haproxy,
    /// `nginx-error`, as `2024/02/29 12:00:00`.
    NginxError,
    /// `local-comma`, as `2024-02-29 12:00:00,123`.
    LocalComma,
    /// `local`, as `2024-02-29 12:00:00.123`.
    Local,
    /// `two-spaces`, as `2024-02-29  12:00:00`.
    TwoSpaces,
    /// `apache-error`, as `Thu Feb 29 12:00:00.123456 2024`.
    ApacheError,
    /// `redis`, as `29 Feb 2024 12:00:00.123`.
    Redis,
    /// `tomcat`, as `29-Feb-2024 12:00:00.123`.
    Tomcat,
    /// `erlang`, as `29-Feb-2024::12:00:00`.
    Erlang,
    /// `bgl`, as `2024-02-29-12.00.00.123456`.
    Bgl,
    /// `syslog`, as `Feb 29 12:00:00`.
    Syslog,
    /// `klog`, as `I0229 12:00:00.123456`.
    Klog,
    /// `android`, as `02-29 12:00:00.123`.
    Android,
    /// `syslog-year`, as `Feb 29 12:00:00 2024`.
    SyslogYear,
    /// `modsecurity`, as `29/Feb/2024:12:00:00.123456 +0530`.
    Modsecurity,
    /// `php`, as `29-Feb-2024 12:00:00 UTC`.
    Php,
    /// `hour-offset`, as `2024-02-29 12:00:00.123 -03`.
    HourOffset,
    /// `cisco-utc`, as `*Feb 29 12:00:00.123 UTC`.
    CiscoUtc,
    /// `cisco`, as `*Feb 29 12:00:00.123`.
    Cisco,
    /// `asa`, as `Feb 29 2024 12:00:00`.
    Asa,
    /// `nxos`, as `2024 Feb 29 12:00:00`.
    Nxos,
    /// `django`, as `29/Feb/2024 12:00:00`.
    Django,
    /// `splunk`, as `02-29-2024 12:00:00.123 +0530`.
    Splunk,
    /// `clickhouse`, as `2024.02.29 12:00:00.123456`.
    Clickhouse,
    /// `suricata`, as `02/29/2024-12:00:00.123456`.
    Suricata,
    /// `redis-2.8`, as `29 Feb 12:00:00.123`.
    Redis28,
    /// `glog`, as `I20240229 12:00:00.123456`.
    Glog,
    /// `unix`, as `1709188200.123`.
    Unix,
    /// `unix-ms`, as `1709188200123`.
    UnixMs,
    /// `unix-us`, as `1709188200123456`.
    UnixUs,
    /// `unix-ns`, as `1709188200123456789`.
    UnixNs,
    /// `mysql-5.6`, as `240229 12:00:00`.
    Mysql56,
    /// `hdfs`, as `240229 120000`.
    Hdfs,
    /// `spark`, as `24/02/29 12:00:00`.
    Spark,
}

/// All forms, in the order in which one is chosen. `CHOSEN` has the number of those that are.
pub const FORMS: [FormName; 45] = [
    FormName::Rfc3339,
    FormName::Rfc3339Comma,
    FormName::Journald,
    FormName::Rfc5424,
    FormName::Rfc3164,
    FormName::Git,
    FormName::Postgres,
    FormName::Clf,
    FormName::GitDefault,
    FormName::Date,
    FormName::Rfc2822,
    FormName::Haproxy,
    FormName::NginxError,
    FormName::LocalComma,
    FormName::Local,
    FormName::TwoSpaces,
    FormName::ApacheError,
    FormName::Redis,
    FormName::Tomcat,
    FormName::Erlang,
    FormName::Bgl,
    FormName::Syslog,
    FormName::Klog,
    FormName::Android,
    FormName::SyslogYear,
    FormName::Modsecurity,
    FormName::Php,
    FormName::HourOffset,
    FormName::CiscoUtc,
    FormName::Cisco,
    FormName::Asa,
    FormName::Nxos,
    FormName::Django,
    FormName::Splunk,
    FormName::Clickhouse,
    FormName::Suricata,
    FormName::Redis28,
    FormName::Glog,
    FormName::Unix,
    FormName::UnixMs,
    FormName::UnixUs,
    FormName::UnixNs,
    FormName::Mysql56,
    FormName::Hdfs,
    FormName::Spark,
];

/// The number of the forms of [`FORMS`] that are chosen without a name. Those after them have years
/// of two digits, from 1970 to 2069, and are read by their names alone.
pub const CHOSEN: usize = 42;

/// The name of a form, as the command line has it.
pub fn form_name(name: FormName) -> &'static str
    ensures { result.now ≡ form_name name }
{
    match name {
        FormName::Rfc3339 => "rfc3339",
        FormName::Rfc3339Comma => "rfc3339-comma",
        FormName::Journald => "journald",
        FormName::Rfc5424 => "rfc5424",
        FormName::Rfc3164 => "rfc3164",
        FormName::Git => "git",
        FormName::Postgres => "postgres",
        FormName::Clf => "clf",
        FormName::GitDefault => "git-default",
        FormName::Date => "date",
        FormName::Rfc2822 => "rfc2822",
        FormName::Haproxy => "haproxy",
        FormName::NginxError => "nginx-error",
        FormName::LocalComma => "local-comma",
        FormName::Local => "local",
        FormName::TwoSpaces => "two-spaces",
        FormName::ApacheError => "apache-error",
        FormName::Redis => "redis",
        FormName::Tomcat => "tomcat",
        FormName::Erlang => "erlang",
        FormName::Bgl => "bgl",
        FormName::Syslog => "syslog",
        FormName::Klog => "klog",
        FormName::Android => "android",
        FormName::SyslogYear => "syslog-year",
        FormName::Modsecurity => "modsecurity",
        FormName::Php => "php",
        FormName::HourOffset => "hour-offset",
        FormName::CiscoUtc => "cisco-utc",
        FormName::Cisco => "cisco",
        FormName::Asa => "asa",
        FormName::Nxos => "nxos",
        FormName::Django => "django",
        FormName::Splunk => "splunk",
        FormName::Clickhouse => "clickhouse",
        FormName::Suricata => "suricata",
        FormName::Redis28 => "redis-2.8",
        FormName::Glog => "glog",
        FormName::Unix => "unix",
        FormName::UnixMs => "unix-ms",
        FormName::UnixUs => "unix-us",
        FormName::UnixNs => "unix-ns",
        FormName::Mysql56 => "mysql-5.6",
        FormName::Hdfs => "hdfs",
        FormName::Spark => "spark",
    }
}

/// A sample of a form.
pub fn sample_of(name: FormName) -> &'static str
    ensures { result.now ≡ sample_of name }
{
    match name {
        FormName::Rfc3339 => "2024-02-29T12:00:00.5+05:30",
        FormName::Rfc3339Comma => "2024-02-29T12:00:00,5+05:30",
        FormName::Journald => "2024-02-29T12:00:00+0530",
        FormName::Rfc5424 => "<34>1 2024-02-29T12:00:00.003Z",
        FormName::Rfc3164 => "<34>Feb 29 12:00:00",
        FormName::Git => "2024-02-29 12:00:00 +0530",
        FormName::Postgres => "2024-02-29 12:00:00.123 UTC",
        FormName::Clf => "29/Feb/2024:12:00:00 +0530",
        FormName::GitDefault => "Thu Feb 29 12:00:00 2024 +0530",
        FormName::Date => "Thu Feb 29 12:00:00 UTC 2024",
        FormName::Rfc2822 => "Thu, 29 Feb 2024 12:00:00 +0530",
        FormName::Haproxy => "29/Feb/2024:12:00:00.123",
        FormName::NginxError => "2024/02/29 12:00:00",
        FormName::LocalComma => "2024-02-29 12:00:00,123",
        FormName::Local => "2024-02-29 12:00:00.123",
        FormName::TwoSpaces => "2024-02-29  12:00:00",
        FormName::ApacheError => "Thu Feb 29 12:00:00.123456 2024",
        FormName::Redis => "29 Feb 2024 12:00:00.123",
        FormName::Tomcat => "29-Feb-2024 12:00:00.123",
        FormName::Erlang => "29-Feb-2024::12:00:00",
        FormName::Bgl => "2024-02-29-12.00.00.123456",
        FormName::Syslog => "Feb 29 12:00:00",
        FormName::Klog => "I0229 12:00:00.123456",
        FormName::Android => "02-29 12:00:00.123",
        FormName::SyslogYear => "Feb 29 12:00:00 2024",
        FormName::Modsecurity => "29/Feb/2024:12:00:00.123456 +0530",
        FormName::Php => "29-Feb-2024 12:00:00 UTC",
        FormName::HourOffset => "2024-02-29 12:00:00.123 -03",
        FormName::CiscoUtc => "*Feb 29 12:00:00.123 UTC",
        FormName::Cisco => "*Feb 29 12:00:00.123",
        FormName::Asa => "Feb 29 2024 12:00:00",
        FormName::Nxos => "2024 Feb 29 12:00:00",
        FormName::Django => "29/Feb/2024 12:00:00",
        FormName::Splunk => "02-29-2024 12:00:00.123 +0530",
        FormName::Clickhouse => "2024.02.29 12:00:00.123456",
        FormName::Suricata => "02/29/2024-12:00:00.123456",
        FormName::Redis28 => "29 Feb 12:00:00.123",
        FormName::Glog => "I20240229 12:00:00.123456",
        FormName::Unix => "1709188200.123",
        FormName::UnixMs => "1709188200123",
        FormName::UnixUs => "1709188200123456",
        FormName::UnixNs => "1709188200123456789",
        FormName::Mysql56 => "240229 12:00:00",
        FormName::Hdfs => "240229 120000",
        FormName::Spark => "24/02/29 12:00:00",
    }
}

// The items of a form.
pub(crate) fn items_of(name: FormName) -> &'static [Item]
    ensures value { result.now ≡ items_of name }
    ensures length { length result.now ≤ 64 }
{
    match name {
        FormName::Rfc3339 => &offset_forms::RFC3339,
        FormName::Rfc3339Comma => &offset_forms::RFC3339_COMMA,
        FormName::Journald => &offset_forms::JOURNALD,
        FormName::Rfc5424 => &offset_forms::RFC5424,
        FormName::Rfc3164 => &short_forms::RFC3164,
        FormName::Git => &offset_forms::GIT,
        FormName::Postgres => &offset_forms::POSTGRES,
        FormName::Clf => &offset_forms::CLF,
        FormName::GitDefault => &offset_forms::GIT_DEFAULT,
        FormName::Date => &offset_forms::DATE,
        FormName::Rfc2822 => &offset_forms::RFC2822,
        FormName::Haproxy => &local_forms::HAPROXY,
        FormName::NginxError => &local_forms::NGINX_ERROR,
        FormName::LocalComma => &local_forms::LOCAL_COMMA,
        FormName::Local => &local_forms::LOCAL,
        FormName::TwoSpaces => &local_forms::TWO_SPACES,
        FormName::ApacheError => &local_forms::APACHE_ERROR,
        FormName::Redis => &local_forms::REDIS,
        FormName::Tomcat => &local_forms::TOMCAT,
        FormName::Erlang => &local_forms::ERLANG,
        FormName::Bgl => &local_forms::BGL,
        FormName::Syslog => &short_forms::SYSLOG,
        FormName::Klog => &short_forms::KLOG,
        FormName::Android => &short_forms::ANDROID,
        FormName::SyslogYear => &local_forms::SYSLOG_YEAR,
        FormName::Modsecurity => &offset_forms::MODSECURITY,
        FormName::Php => &offset_forms::PHP,
        FormName::HourOffset => &offset_forms::HOUR_OFFSET,
        FormName::CiscoUtc => &offset_forms::CISCO_UTC,
        FormName::Cisco => &short_forms::CISCO,
        FormName::Asa => &local_forms::ASA,
        FormName::Nxos => &local_forms::NXOS,
        FormName::Django => &local_forms::DJANGO,
        FormName::Splunk => &offset_forms::SPLUNK,
        FormName::Clickhouse => &local_forms::CLICKHOUSE,
        FormName::Suricata => &local_forms::SURICATA,
        FormName::Redis28 => &short_forms::REDIS_2_8,
        FormName::Glog => &local_forms::GLOG,
        FormName::Unix => &short_forms::UNIX,
        FormName::UnixMs => &short_forms::UNIX_MS,
        FormName::UnixUs => &short_forms::UNIX_US,
        FormName::UnixNs => &short_forms::UNIX_NS,
        FormName::Mysql56 => &local_forms::MYSQL_5_6,
        FormName::Hdfs => &local_forms::HDFS,
        FormName::Spark => &local_forms::SPARK,
    }
}

// The items before a stamp of a form, which are no part of it.
pub(crate) fn lead_of(name: FormName) -> &'static [Item]
    ensures value { result.now ≡ lead_of name }
    ensures length { length result.now ≤ 8 }
{
    match name {
        FormName::Rfc3339 => &[],
        FormName::Rfc3339Comma => &[],
        FormName::Journald => &[],
        FormName::Rfc5424 => &offset_forms::RFC5424_LEAD,
        FormName::Rfc3164 => &short_forms::RFC3164_LEAD,
        FormName::Git => &[],
        FormName::Postgres => &[],
        FormName::Clf => &[],
        FormName::GitDefault => &[],
        FormName::Date => &[],
        FormName::Rfc2822 => &[],
        FormName::Haproxy => &[],
        FormName::NginxError => &[],
        FormName::LocalComma => &[],
        FormName::Local => &[],
        FormName::TwoSpaces => &[],
        FormName::ApacheError => &[],
        FormName::Redis => &[],
        FormName::Tomcat => &[],
        FormName::Erlang => &[],
        FormName::Bgl => &[],
        FormName::Syslog => &[],
        FormName::Klog => &short_forms::KLOG_LEAD,
        FormName::Android => &[],
        FormName::SyslogYear => &[],
        FormName::Modsecurity => &[],
        FormName::Php => &[],
        FormName::HourOffset => &[],
        FormName::CiscoUtc => &offset_forms::CISCO_UTC_LEAD,
        FormName::Cisco => &short_forms::CISCO_LEAD,
        FormName::Asa => &offset_forms::CISCO_UTC_LEAD,
        FormName::Nxos => &[],
        FormName::Django => &[],
        FormName::Splunk => &[],
        FormName::Clickhouse => &[],
        FormName::Suricata => &[],
        FormName::Redis28 => &[],
        FormName::Glog => &short_forms::KLOG_LEAD,
        FormName::Unix => &[],
        FormName::UnixMs => &[],
        FormName::UnixUs => &[],
        FormName::UnixNs => &[],
        FormName::Mysql56 => &[],
        FormName::Hdfs => &[],
        FormName::Spark => &[],
    }
}

// The number of the items before the digits that are counted.
pub(crate) fn ahead_of(name: FormName) -> usize
    ensures { result ≡ ahead_of name }
{
    match name {
        FormName::Rfc3339 => 0,
        FormName::Rfc3339Comma => 0,
        FormName::Journald => 0,
        FormName::Rfc5424 => 0,
        FormName::Rfc3164 => 0,
        FormName::Git => 0,
        FormName::Postgres => 0,
        FormName::Clf => 4,
        FormName::GitDefault => 15,
        FormName::Date => 20,
        FormName::Rfc2822 => 11,
        FormName::Haproxy => 4,
        FormName::NginxError => 0,
        FormName::LocalComma => 0,
        FormName::Local => 0,
        FormName::TwoSpaces => 0,
        FormName::ApacheError => 18,
        FormName::Redis => 4,
        FormName::Tomcat => 4,
        FormName::Erlang => 4,
        FormName::Bgl => 0,
        FormName::Syslog => 0,
        FormName::Klog => 0,
        FormName::Android => 0,
        FormName::SyslogYear => 16,
        FormName::Modsecurity => 4,
        FormName::Php => 4,
        FormName::HourOffset => 0,
        FormName::CiscoUtc => 0,
        FormName::Cisco => 0,
        FormName::Asa => 7,
        FormName::Nxos => 0,
        FormName::Django => 4,
        FormName::Splunk => 4,
        FormName::Clickhouse => 0,
        FormName::Suricata => 4,
        FormName::Redis28 => 0,
        FormName::Glog => 0,
        FormName::Unix => 0,
        FormName::UnixMs => 0,
        FormName::UnixUs => 0,
        FormName::UnixNs => 0,
        FormName::Mysql56 => 0,
        FormName::Hdfs => 0,
        FormName::Spark => 0,
    }
}

// How many digits a text has after these items, if they are counted.
pub(crate) fn digits_of(name: FormName) -> Option<usize>
    ensures { result ≡ digits_of name }
{
    match name {
        FormName::Rfc3339 => Some(4),
        FormName::Rfc3339Comma => Some(4),
        FormName::Journald => Some(4),
        FormName::Rfc5424 => Some(4),
        FormName::Rfc3164 => None,
        FormName::Git => Some(4),
        FormName::Postgres => Some(4),
        FormName::Clf => Some(4),
        FormName::GitDefault => Some(4),
        FormName::Date => Some(4),
        FormName::Rfc2822 => Some(4),
        FormName::Haproxy => Some(4),
        FormName::NginxError => Some(4),
        FormName::LocalComma => Some(4),
        FormName::Local => Some(4),
        FormName::TwoSpaces => Some(4),
        FormName::ApacheError => Some(4),
        FormName::Redis => Some(4),
        FormName::Tomcat => Some(4),
        FormName::Erlang => Some(4),
        FormName::Bgl => Some(4),
        FormName::Syslog => None,
        FormName::Klog => Some(4),
        FormName::Android => Some(2),
        FormName::SyslogYear => Some(4),
        FormName::Modsecurity => Some(4),
        FormName::Php => Some(4),
        FormName::HourOffset => Some(4),
        FormName::CiscoUtc => None,
        FormName::Cisco => None,
        FormName::Asa => Some(4),
        FormName::Nxos => Some(4),
        FormName::Django => Some(4),
        FormName::Splunk => Some(4),
        FormName::Clickhouse => Some(4),
        FormName::Suricata => Some(4),
        FormName::Redis28 => None,
        FormName::Glog => Some(8),
        FormName::Unix => Some(10),
        FormName::UnixMs => Some(13),
        FormName::UnixUs => Some(16),
        FormName::UnixNs => Some(19),
        FormName::Mysql56 => Some(6),
        FormName::Hdfs => Some(6),
        FormName::Spark => Some(2),
    }
}

/// The form of a name, if it is one.
pub fn name_of(text: &[u8]) -> Option<FormName>
    ensures { result ≡ name_in FORMS text.now }
{
    name_in(&FORMS, text)
}

// The first of these forms that has the name.
#[tactic(auto, unfolding(crate::specs::Forms::name_in))]
fn name_in(names: &[FormName], text: &[u8]) -> Option<FormName>
    ensures { result ≡ name_in names.now text.now }
{
    let Some((name, names)) = names.split_first() else {
        return None;
    };
    if form_name(*name).as_bytes() == text {
        Some(*name)
    } else {
        name_in(names, text)
    }
}
