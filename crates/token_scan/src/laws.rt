//! Laws of tokens.
ghost use Rattle.token_scan.specs.ScannerLaws.{LayoutIsLongest, PlacesAreUnique, RunsAreLongest};

/// A run is all of its characters, and the next character is none of them.
pub fn runs_are_longest()
    ensures { RunsAreLongest }
{}

/// Layout goes on as long as there is any.
pub fn layout_is_longest()
    ensures { LayoutIsLongest }
{}

/// So a token and a fault have one place each.
pub fn places_are_told()
    ensures { PlacesAreUnique }
{}
