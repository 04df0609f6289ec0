//! Laws of descriptions. Each function here proves a law, and does nothing when it is called.
ghost use Rattle.format_descriptions.specs.Choices.{TextsSpellChoices, FrontsSpellChoices, FirstChoicesAreTaken};
ghost use Rattle.format_descriptions.specs.DescriptionLaws.{WrittenDescriptionsReadBack};
ghost use Rattle.format_descriptions.specs.Laws.{DisplaysAreDescriptions, FixedTextsAreDescriptions};
ghost use Rattle.format_descriptions.specs.MailLaws.{MailTextsAreRead, MailTextsReadBack};
ghost use Rattle.format_descriptions.specs.PlaceLaws.{PlacesAreThoseOfTheChoice};
ghost use Rattle.format_descriptions.specs.RoundTrips.{WrittenTextsReadBack};
ghost use Rattle.format_descriptions.specs.SeparateChoices.{SeparateChoicesAreRead};
ghost use Rattle.format_descriptions.specs.Spelled.{TextsAreReadAsSpelled};
ghost use Rattle.format_descriptions.specs.ValueLaws.{WrittenValuesAreNamed};
ghost use Rattle.format_descriptions.specs.WellKnown.{WellKnownAreClear};

/// The texts of `Display` are those of descriptions.
pub fn displays_are_descriptions()
    ensures { DisplaysAreDescriptions }
{}

/// The texts of RFC 3339 of fixed width are those of descriptions.
pub fn fixed_texts_are_descriptions()
    ensures { FixedTextsAreDescriptions }
{}

/// A text that a clear description writes is read back to its end, and each part that is read is
/// that of the value.
pub fn written_texts_read_back()
    ensures { WrittenTextsReadBack }
{}

/// The parts of what a description writes name the date, the time of day and the offset again, each
/// where there are enough parts of it.
pub fn written_values_are_named()
    ensures { WrittenValuesAreNamed }
{}

/// A description without groups reads a text only if the text spells it. The text has each byte,
/// and a number for each component: its digits with a sign and padding, or a word. A description
/// reads each text that spells it, if no digit follows a component that reads all digits. The last
/// digits of a number write it, if it has no more digits.
pub fn texts_are_read_as_spelled()
    ensures { TextsAreReadAsSpelled }
{}

/// A description reads a text only if the text spells a choice of its items, which has no groups. A
/// choice has an optional group or leaves it out. It has one of a first group and the groups in its
/// place. The items that a description writes are a choice too.
pub fn texts_spell_choices()
    ensures { TextsSpellChoices }
{}

/// A description reads a front of a text only if the front spells a choice of its items, and the
/// rest of the text follows it.
pub fn fronts_spell_choices()
    ensures { FrontsSpellChoices }
{}

/// A description reads what the choice reads that it takes. It takes each group that reads the text
/// at its place. So it leaves an optional group out only if the text does not have its items there.
/// It takes another group only if the text has none of those before it. All parts are those of the
/// choice.
pub fn first_choices_are_taken()
    ensures { FirstChoicesAreTaken }
{}

/// A description reads a text that spells a separate choice of its items, with the parts that the
/// text spells. In such a choice no digit follows a component that reads all digits. Each group
/// that it leaves out or replaces begins with other bytes than the items that follow.
pub fn separate_choices_are_read()
    ensures { SeparateChoicesAreRead }
{}

/// The place that `part_place` returns is that of the component that gives the part, in the choice
/// that the reading takes. The items before it read the text up to this place, and have no such
/// part. The component reads a number there, whose text has the length. Each part that is read has
/// a place.
pub fn places_are_those_of_the_choice()
    ensures { PlacesAreThoseOfTheChoice }
{}

/// The well-known descriptions are clear: what they write is read back.
pub fn well_known_are_clear()
    ensures { WellKnownAreClear }
{}

/// The text that items have as a description is read back as these items, in every room that has a
/// place for them.
pub fn written_descriptions_read_back()
    ensures { WrittenDescriptionsReadBack }
{}

/// A year of RFC 2822 that is read is from 1900 to 9999. Examples say what years of two digits
/// mean, which offset each zone has, where white space and comments may be, and where a fault is.
pub fn mail_texts_are_read()
    ensures { MailTextsAreRead }
{}

/// A text that `format_rfc2822` writes is read back: its parts name the date-time without its
/// fraction of a second, at the same offset.
pub fn written_mail_is_read_back()
    ensures { MailTextsReadBack }
{}
