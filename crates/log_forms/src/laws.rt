//! Laws of forms. Each function here proves a law, and does nothing when it is called.
ghost use Rattle.log_forms.specs.ChoiceLaws.{BothFirstLinesChoose, FoundLinesCount, MostLinesChoose, NothingChooses, OneLineChooses};
ghost use Rattle.log_forms.specs.Examples.{FieldsAreCounted, MembersAreFound, OffsetsOfAlmostADay, ShortYearsAreNamed, ZonesAreKnown};
ghost use Rattle.log_forms.specs.JsonLaws.{FirstMembersAreFound, OtherNamesAreNotFound, PathsLeadToTheirValues};
ghost use Rattle.log_forms.specs.Laws.{FirstYearsStay, FormTextsReadBack, StampsEndApart, YearsAreNearest};
ghost use Rattle.log_forms.specs.Laws.{YearsAreNeverLeftOut, ZonesAreNeverLeftOut};
ghost use Rattle.log_forms.specs.ReadLaws.{BareCountsAreDoubted, DigitsAreCounted, LinesAreRead, PlacesAreWords};
ghost use Rattle.log_forms.specs.Samples.{NamesFindTheirForms, SamplesAreRead};

/// A date-time that a clear form writes is found again, with its instant, to the end of its text.
pub fn form_texts_read_back()
    ensures { FormTextsReadBack }
{
    format_descriptions::laws::written_texts_read_back();
    format_descriptions::laws::written_values_are_named()
}

/// A stamp that is found ends within the first 65,500 bytes of its line, where its last word ends:
/// before no digit, no letter and no sign, and before no `.` that a letter or a digit follows.
pub fn stamps_end_apart()
    ensures { StampsEndApart }
{}

/// A stamp that needs an assumed offset leaves out no time zone and no half of the day, also after
/// blanks and a bracket, and in the next column of a table. The last word before it is no time
/// zone. No `:` before a letter or a digit follows it.
pub fn zones_are_never_left_out()
    ensures { ZonesAreNeverLeftOut }
{}

/// A stamp that needs an assumed year leaves out no year after a space.
pub fn years_are_never_left_out()
    ensures { YearsAreNeverLeftOut }
{}

/// A stamp without a year is read in the year in which its month is nearest to that of the stamp
/// before; six months away, in the year of that stamp. The first stamp has the assumed year.
pub fn years_are_nearest()
    ensures nearest { YearsAreNearest }
    ensures first { FirstYearsStay }
{}

/// Each form reads its sample whole, as the instant that a table says.
pub fn samples_are_read()
    ensures { SamplesAreRead }
{}

/// The name of each form finds that form.
pub fn names_find_their_forms()
    ensures { NamesFindTheirForms }
{}

/// A name finds the first member of that name in a line that is an object of JSON, by the grammar
/// of RFC 8259. It finds the same one whatever the other values hold. The names are compared byte
/// by byte, as they are spelled between their quotes. A path leads to the member of its last name,
/// in the objects of the names before. A name that no member has finds nothing.
pub fn members_are_first_of_their_names()
    ensures first { FirstMembersAreFound }
    ensures path { PathsLeadToTheirValues }
    ensures none { OtherNamesAreNotFound }
{}

/// The reader that is chosen is the first that finds a stamp in both of the first two lines. If
/// there is none, it is the first of those that find stamps in the most lines. If no reader finds a
/// stamp, none is chosen.
pub fn most_stamps_choose()
    ensures both { BothFirstLinesChoose }
    ensures most { MostLinesChoose }
    ensures one { OneLineChooses }
    ensures nothing { NothingChooses }
{}

/// A reader counts the lines in which it finds a stamp if it may be chosen, else none. It may be
/// chosen if its stamps are no bare counts, or two at least that grow slowly. Those that end with
/// digits after a comma have as many digits then. Counts grow slowly if they are of the years 2000
/// to 2039, in order, and of less than 366 days.
pub fn found_lines_count()
    ensures { FoundLinesCount }
{}

/// A reader is sure of lines exactly where it finds no bare count in them: a name or a bracket
/// leads to its place, or each stamp is longer than a count without a fraction. A line is read
/// exactly where a reader finds a stamp there that is no bare count, or is of the years 2000 to
/// 2039.
pub fn lines_are_read()
    ensures sure { BareCountsAreDoubted }
    ensures read { LinesAreRead }
{}

/// The digits after a comma at the end of a stamp are counted, and no others.
pub fn digits_are_counted()
    ensures { DigitsAreCounted }
{}

/// The places at which forms are looked for are those of words such as `json:time`, in their order,
/// and a bare count is doubted at some of them. At each place the forms are in one order.
pub fn places_are_words()
    ensures { PlacesAreWords }
{}

/// Examples of places and of what follows a stamp. A member of JSON is the first of its name in the
/// outermost object. Fields are counted from 1. An offset of almost a day is read. Forms with years
/// of two digits are not chosen. Words such as `PST` are time zones.
pub fn examples_are_found()
    ensures members { MembersAreFound }
    ensures fields { FieldsAreCounted }
    ensures offsets { OffsetsOfAlmostADay }
    ensures named { ShortYearsAreNamed }
    ensures zones { ZonesAreKnown }
{}
