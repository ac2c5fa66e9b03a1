//! Lines and columns.
ghost use Rattle.std.specs.Prelude.{IsCharBoundary};
ghost use Rattle.au_model.specs.Syntax.Characters.{chars_from};
ghost use Rattle.au_model.specs.Syntax.TextFaults.{IsLineAndColumn};

/// The line and the column of a place, each counted from 1. A line ends at a line feed, and a column counts
/// characters. Numbers that are wider stop at the greatest.
pub fn line_and_column(text: &str, at: usize) -> (u32, u32)
    requires { IsCharBoundary text.now at }
    ensures { IsLineAndColumn text.now (chars_from text.now at) result.0 result.1 }
{
    let mut line: u32 = 1;
    let mut column: u32 = 1;
    for c in text[..at].chars() {
        if c == '\n' {
            line = line.saturating_add(1);
            column = 1;
        } else {
            column = column.saturating_add(1);
        }
    }
    (line, column)
}
