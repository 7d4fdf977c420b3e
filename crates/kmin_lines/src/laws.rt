//! Laws of the lines of texts.
ghost use Rattle.std.specs.Prelude.{◌≡◌, ℕ, List, [], length};
ghost use Rattle.kmin_lines.specs.Lines.{count_lines_not_in, lines_of};
ghost use Rattle.kmin_lines.specs.LackingLines.{lacking_lines, surplus};

/// A text lacks as many lines of another as `count_lines` counts.
pub fn lacking_lines_are_counted()
    ensures { (text other : List ℕ) → length (lacking_lines text other) ≡ count_lines_not_in text other }
{}

/// The lines of a text that another one lacks are those that have at least as many equal lines before them as the other has in all.
pub fn last_lines_are_lacking()
    ensures { (text other : List ℕ) → lacking_lines text other ≡ surplus [] (lines_of text) (lines_of other) }
{}
