//! The usage. Made by make/stamps_words.

/// The text that `--help` prints.
pub const USAGE: &str = "usage: stamps WORD [FILE..]
  utc [--strict]                             write each stamp in UTC
  at OFFSET [--strict]                       write each stamp at an offset, as +05:30 or Z
  unix [--strict]                            write each stamp as Unix seconds
  check [--all] [--strict]                   write nothing, and fail where the instants decrease
  gaps DURATION [--strict]                   write each gap that is longer, as 90s, 5m or 1h30m
  count UNIT [at OFFSET] [--all] [--strict]  write the number of lines in each minute, hour or day
  since FROM [--until TO] [--verbose]        write the lines from this instant on
  until TO [--verbose]                       write the lines before this instant
  between FROM TO [--verbose]                write the lines from the first instant on, and before the second
  merge [--to STYLE] [--strict]              write the lines of all files in the order of their instants
  --list-forms                               print each form and a sample of it
  --help                                     print this usage
  --version                                  print the version
FROM and TO are date-times, as 2024-02-29T12:00:00Z, or dates or date-times on the clocks of --offset or --zone,
or durations back: -1h from now, last-15m from the last stamp of the FILEs.
With --strict the first line without a stamp ends the run, but not that of merge.
With --strict the first line that goes back ends gaps, count and merge.
With --all check prints every line at fault, and count each row of 0.
With --verbose since, until and between print the instants of their bounds on standard error.
With --form FORM stamps have a form by its name, or by a description, as [day]/[month]/[year].
With --place PLACE they are at front, access, coloured, field:N, after:TEXT or json:NAME.
With --offset OFFSET those without an offset have this one, as +05:30 or Z.
With --zone ZONE clocks of a time zone show them, as Europe/Berlin: the earlier of two instants.
With --year YEAR the first of those without a year has this one, with --year FILE=YEAR that of FILE.
With --year mtime it has the latest that is not after the last change of its file.
With --to STYLE merge writes each stamp in front of its line, or in its member of JSON:
in utc, unix, or at an offset, as +05:30.
With --until TO since writes only the lines before this instant, as between does.
With --quiet stamps leaves out its notes, but no error.
Without --form and --place the first lines of each FILE choose both.
With --form alone the place is front. With --place alone the form is rfc3339.
Without a FILE, or for the FILE -, stamps reads standard input.
The status is 0, or 1 for a gap or a line at fault, or 2 for an error.";
