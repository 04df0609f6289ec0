//! Laws of the definitions that the contract of `stamps` cites: each function here proves one, for
//! all inputs, and does nothing when it is called.
ghost use Rattle.stamps.specs.BoundLaws.{BoundsAreExact};
ghost use Rattle.stamps.specs.BucketLaws.{BucketsHaveTheirInstants};
ghost use Rattle.stamps.specs.Examples.{DurationsAreRead, WordsAreShown};
ghost use Rattle.stamps.specs.FrontLaws.{BareLinesStay};
ghost use Rattle.stamps.specs.Laws.{BetweenIsBothCuts, CheckTellsTheOrder, GapsTellSilences, LinesAreWrittenAlone, SinceAndUntilCutInTwo, StampsAreDateTimes};
ghost use Rattle.stamps.specs.Laws.{FormsChangeForAReason, MergedLinesAreRead, MergedLinesAreWrittenInUnix};
ghost use Rattle.stamps.specs.Laws.{UtcTwiceIsOnce, ValuesStayValues, WrittenLinesKeepTheOrder};
ghost use Rattle.stamps.specs.LeadingLaws.{FirstBytesChoose, FirstLinesChoose};
ghost use Rattle.stamps.specs.Usage.{BoundsAreInstants, WordsAskAsTheUsageSays};
ghost use Rattle.stamps.specs.YearLaws.{StampsAreUntil, YearsAreGiven, YearsAreGivenOnce};

/// A text has the stamp that it is read with, and no other: a date-time of RFC 3339 that ends
/// there.
pub fn stamps_are_date_times()
    ensures { StampsAreDateTimes }
{}

/// A bound is finer than instants are exactly where a digit of its fraction past the ninth is not
/// 0.
pub fn bounds_are_exact()
    ensures { BoundsAreExact }
{}

/// A date-time with an offset is a bound for its instant exactly where it is not finer than a
/// nanosecond, and one with a part out of its range is none.
pub fn bounds_are_instants()
    ensures { BoundsAreInstants }
{}

/// `since` writes the lines whose instant is not before the bound, and `until` all others: whole,
/// and in their order.
pub fn since_and_until_cut_in_two()
    ensures { SinceAndUntilCutInTwo }
{}

/// `between` writes exactly the lines that both cuts write: `since` by the first instant, and
/// `until` by the second one.
pub fn between_is_both_cuts()
    ensures { BetweenIsBothCuts }
{}

/// A task that writes stamps and is not strict writes each line by itself, in its order: an input
/// can be cut at a line feed.
pub fn lines_are_written_alone()
    ensures { LinesAreWrittenAlone }
{}

/// `check` finds nothing exactly where the instants do not decrease, and each stamp is in its
/// ranges: of the lines that have a stamp, of which there is one if there are lines; or, where the
/// task is strict, of all lines.
pub fn check_tells_the_order()
    ensures { CheckTellsTheOrder }
{}

/// `gaps` tells exactly the lines whose instant is later than each instant before it by more than
/// the limit, unless the task is strict, and how long the time since the latest of these was.
pub fn gaps_tell_silences()
    ensures { GapsTellSilences }
{}

/// A stamp written in UTC has the instant of the one that it replaces, what follows it stays, and a
/// line written twice is as written once.
pub fn utc_twice_is_once()
    ensures { UtcTwiceIsOnce }
{}

/// A date in place of a value of JSON is in quotes, and Unix seconds are not: the quotes of a text
/// go with it.
pub fn values_stay_values()
    ensures { ValuesStayValues }
{}

/// Lines that have a text in UTC are, written there, in the order of bytes in which their instants
/// are, whatever follows.
pub fn written_lines_keep_the_order()
    ensures { WrittenLinesKeepTheOrder }
{
    rfc3339::laws::fixed_texts_keep_the_order()
}

/// Words make a request, or are a misuse, exactly where the usage has it so.
pub fn words_ask_as_the_usage_says()
    ensures { WordsAskAsTheUsageSays }
{}

/// A line of a merge in UTC is read again as the instant of its stamp. So the merge in Unix
/// seconds, which writes that line as `unix` does, writes the seconds of its stamp, and the rest
/// stays.
pub fn merged_lines_are_read()
    ensures read { MergedLinesAreRead }
    ensures unix { MergedLinesAreWrittenInUnix }
{}

/// A log is read in one form if fewer than 15 of its lines with text in a row have no stamp. Where
/// another form reads on, at least 15 have none, and it reads one of them and the last one.
pub fn forms_change_for_a_reason()
    ensures { FormsChangeForAReason }
{}

/// The bucket of an instant starts no later, and ends after it. Its start is a whole number of
/// units of the local clock. The next bucket starts at its end, or at the end of the range.
pub fn buckets_have_their_instants()
    ensures { BucketsHaveTheirInstants }
{}

/// Examples of durations: `90s`, `5m`, `1h30m`, and texts that are none.
pub fn durations_are_read()
    ensures { DurationsAreRead }
{}

/// A file has the year of the first value of `--year` that names it, or else that of the first one
/// without a name. A name may have the sign of equality too.
pub fn years_are_given()
    ensures values { YearsAreGiven }
    ensures once { YearsAreGivenOnce }
{}

/// A line is up to an instant exactly where it has a stamp that is not after it.
pub fn stamps_are_until()
    ensures { StampsAreUntil }
{}

/// The form of a log is the one that its first 16 lines choose which a reader reads. The lines
/// between them and after them do not matter.
pub fn first_lines_choose()
    ensures { FirstLinesChoose }
{}

/// The same holds by the first bytes of a log: its lines are those that a line feed ends, and the
/// last one. A line that fills the first bytes chooses too.
pub fn first_bytes_choose()
    ensures { FirstBytesChoose }
{}

/// Examples of the word that a message shows after the timestamp which a form finds.
pub fn words_are_shown()
    ensures { WordsAreShown }
{}

/// A merge in one style leaves a line without a timestamp as it is, whatever its length.
pub fn bare_lines_stay()
    ensures { BareLinesStay }
{}
