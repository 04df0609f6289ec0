//! Laws of how long texts are: each function here proves one, and does nothing when it is called.
ghost use Rattle.rfc3339.specs.LengthLaws.{TextsInUtcHaveThirtyBytes, WrittenTextsAreTheShortest};

/// The shortest text of an instant in UTC has 30 bytes at most.
pub fn texts_in_utc_have_thirty_bytes()
    ensures { TextsInUtcHaveThirtyBytes }
{}

/// No text that is read as a date-time is shorter than the one that is written of it.
pub fn written_texts_are_the_shortest()
    ensures { WrittenTextsAreTheShortest }
{}
