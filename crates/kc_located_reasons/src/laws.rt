//! Laws of located reasons.
ghost use Rattle.kc_located_reasons.specs.Laws.{NeedsAreLocated, UnmetAreLocated, GivenPlacesAreOfReasons};

/// What a symbol's prompts need is what their lines lack.
pub fn needs_are_located()
    ensures { NeedsAreLocated }
{}

/// What is unmet is what the lines of its definitions' dependencies lack.
pub fn unmet_are_located()
    ensures { UnmetAreLocated }
{}

/// The place of what gives the value is that of a symbol's reasons.
pub fn given_places_are_of_reasons()
    ensures { GivenPlacesAreOfReasons }
{}
