//! Laws of the calls over time zones. Each function here proves a law, and does nothing when it is
//! called.
ghost use Rattle.muxandu_c.specs.ZoneLaws.{ChoicesAreNumbered, InstantsAreExact, ReasonsAreApart};

/// The numbers for a wall clock count the instants at which the clocks of the zone show it, and no
/// others.
pub(crate) fn instants_are_exact()
    ensures { InstantsAreExact }
{}

/// The numbers 1 to 4 are the choices of the header, in its order, and no other number is one.
pub(crate) fn choices_are_numbered()
    ensures { ChoicesAreNumbered }
{}

/// Parts of a file that are at fault have reasons of their own.
pub(crate) fn reasons_are_apart()
    ensures { ReasonsAreApart }
{}
