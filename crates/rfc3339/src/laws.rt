//! Laws of the texts: each function here proves one, and does nothing when it is called.
ghost use Rattle.rfc3339.specs.Laws.{TextsHaveOneReading, ReadingsAreOfTheForm, WrittenTextsReadBack, TextsTellValues};
ghost use Rattle.rfc3339.specs.Laws.{FixedTextsHaveOneWidth, FixedTextsKeepTheOrder};
ghost use Rattle.rfc3339.specs.Grammar.{FormsAreOfTheGrammar, RefusalsAreOfTheGrammar, WrittenTextsAreOfTheGrammar, BeginningsAreOfTheGrammar};
ghost use Rattle.rfc3339.specs.Printed.{GrammarIsPrinted};
ghost use Rattle.rfc3339.specs.Recogniser.{GrammarsAreDecided};
ghost use Rattle.rfc3339.specs.Suffixes.{SuffixesArePrinted, SuffixesAreDecided, SuffixesAreInBrackets, SuffixesAreCutOff};
ghost use Rattle.rfc3339.specs.DigitLaws.{TextsOfDigitsTruncate, TextsOfDigitsKeepTheOrder};
ghost use Rattle.rfc3339.specs.LeapLaws.{LeapReadingsKeepTheOrder, DigitsInUtcKeepTheOrder};

/// A text spells one list of parts at most.
pub fn texts_have_one_reading()
    ensures { TextsHaveOneReading }
{}

/// The reading of a text is the meaning of the numbers that it spells, or else an error of its
/// form.
pub fn readings_are_of_the_form()
    ensures { ReadingsAreOfTheForm }
{}

/// A written text has the form, and means the value that was written, offset included.
pub fn written_texts_read_back()
    ensures { WrittenTextsReadBack }
{}

/// Two date-times with one text are one value.
pub fn texts_tell_values()
    ensures { TextsTellValues }
{}

/// The texts of fixed width have 30 bytes.
pub fn fixed_texts_have_one_width()
    ensures { FixedTextsHaveOneWidth }
{}

/// The texts of fixed width compare, byte by byte, as their instants do.
pub fn fixed_texts_keep_the_order()
    ensures { FixedTextsKeepTheOrder }
{}

/// A text of a number of digits reads as the date-time truncated to the last of them.
pub fn texts_of_digits_truncate()
    ensures { TextsOfDigitsTruncate }
{}

/// The texts of one number of digits at one offset compare, byte by byte, as the date-times
/// truncated to the last of them do.
pub fn texts_of_digits_keep_the_order()
    ensures { TextsOfDigitsKeepTheOrder }
{}

/// A text has the form of a date-time exactly where the grammar of RFC 3339 derives it. The grammar
/// has the rule `date-time`, and a space in place of the T, as a note of the RFC allows. A text has
/// the form of a date exactly where `full-date` derives it.
pub fn forms_are_of_the_grammar()
    ensures { FormsAreOfTheGrammar }
{}

/// A text fails for its form exactly if the grammar does not derive it.
pub fn refusals_are_of_the_grammar()
    ensures { RefusalsAreOfTheGrammar }
{}

/// The grammar derives each text that the library writes, by the RFC's own `date-time` or
/// `full-date`.
pub fn written_texts_are_of_the_grammar()
    ensures { WrittenTextsAreOfTheGrammar }
{}

/// No text that the grammar derives begins another. The front of a text fails for its form exactly
/// if the grammar derives no beginning of it. The fault of a text follows its longest beginning
/// that also begins a derived text.
pub fn beginnings_are_of_the_grammar()
    ensures { BeginningsAreOfTheGrammar }
{}

/// The rules of the grammar, printed as RFC 5234 prints rules, are the lines of RFC 3339, section
/// 5.6.
pub fn grammar_is_printed()
    ensures { GrammarIsPrinted }
{}

/// `parse_rfc3339_leap` reads an earlier text, with seconds of 0 to 60, as an earlier instant, or
/// as the same if the later is a leap second.
pub fn leap_readings_keep_the_order()
    ensures { LeapReadingsKeepTheOrder }
{}

/// Of two texts in UTC that are read, leap seconds included, the one whose digits are earlier is
/// not read as a later instant.
pub fn digits_in_utc_keep_the_order()
    ensures { DigitsInUtcKeepTheOrder }
{}

/// A recogniser computes whether a grammar derives a text, for each grammar in which no rule leads
/// back to itself. RFC 3339's is one. So a text fails for its form exactly if the recogniser
/// rejects it.
pub fn grammars_are_decided()
    ensures { GrammarsAreDecided }
{}

/// The rules of RFC 9557, section 4.1, printed as RFC 5234 prints rules, are the lines of that
/// section. The two alternatives of `time-zone` are in parentheses.
pub fn suffixes_are_printed()
    ensures { SuffixesArePrinted }
{}

/// The recogniser says of each text whether it is a date-time with a suffix of RFC 9557.
pub fn suffixes_are_decided()
    ensures { SuffixesAreDecided }
{}

/// A suffix begins with `[` and ends with `]`, or is empty. A date-time has no `[`.
pub fn suffixes_are_in_brackets()
    ensures { SuffixesAreInBrackets }
{}

/// A text of RFC 9557's `date-time-ext` is a date-time of RFC 3339 and a suffix, in one way: the
/// date-time precedes the first `[`. [`parse_rfc3339_front`](crate::parse_rfc3339_front) reads it
/// as the date-time is read alone.
pub fn suffixes_are_cut_off()
    ensures { SuffixesAreCutOff }
{}
