//! Laws of the texts: each function here proves one, and does nothing when it is called.
ghost use Rattle.iso_texts.specs.IsoLaws.{IsoTextsHaveOneReading, EveryDateTimeReadsBack, IsoTextsTellDateTimes};
ghost use Rattle.iso_texts.specs.IsoLaws.{IsoTextsAreThoseOfRfc3339};

/// A text spells one list of parts at most.
pub fn iso_texts_have_one_reading()
    ensures { IsoTextsHaveOneReading }
{}

/// Each date-time of the range, at each offset, has a text. The grammar derives it, and it is read
/// back, offset included.
pub fn every_date_time_reads_back()
    ensures { EveryDateTimeReadsBack }
{}

/// Two date-times with one text are one value.
pub fn iso_texts_tell_date_times()
    ensures { IsoTextsTellDateTimes }
{}

/// A date-time that has a text of RFC 3339 has that text.
pub fn iso_texts_are_those_of_rfc3339()
    ensures { IsoTextsAreThoseOfRfc3339 }
{}
