//! The control constructs by name and number of arguments.
ghost use Rattle.std.specs.Prelude.{◌≡◌, false, is_some, MatchOption, map};
ghost use Rattle.std.specs.List.{list_any};
ghost use Rattle.std_builtins.specs.Rows.{is_row as is_row_of};
ghost use Rattle.std.specs.Str.{chars};
ghost use Rattle.run_model.specs.Goals.Control.{construct_of, control_constructs};
ghost use Rattle.std_builtins.specs.Controls.{IsControl};
ghost use Rattle.std_builtins.specs.Rows.{kind_in};

use crate::table::is_row;

/// A control construct (ISO/IEC 13211-1, 7.8, 8.10.1 and 8.15).
#[derive(Clone, Copy, Debug, PartialEq, Eq)]
pub enum Control {
    Succeed,
    Fail,
    Cut,
    Either,
    Then,
    Not,
    Once,
    Throw,
    Catch,
    Findall,
    Call,
}

/// Each construct with its name and number of arguments.
const CONTROL: [(&str, u32, Control); 19] = [
    ("true", 0, Control::Succeed),
    ("fail", 0, Control::Fail),
    ("false", 0, Control::Fail),
    ("!", 0, Control::Cut),
    (";", 2, Control::Either),
    ("->", 2, Control::Then),
    ("\\+", 1, Control::Not),
    ("once", 1, Control::Once),
    ("throw", 1, Control::Throw),
    ("catch", 3, Control::Catch),
    ("findall", 3, Control::Findall),
    ("call", 1, Control::Call),
    ("call", 2, Control::Call),
    ("call", 3, Control::Call),
    ("call", 4, Control::Call),
    ("call", 5, Control::Call),
    ("call", 6, Control::Call),
    ("call", 7, Control::Call),
    ("call", 8, Control::Call),
];

/// The construct of this name and number of arguments, if there is one.
pub fn control_of(name: &str, arity: u32) -> Option<Control>
    ensures { MatchOption result (is_some (construct_of control_constructs (chars name.now) arity) ≡ false) (λ control. IsControl control (chars name.now) arity) }
{
    control_among(&CONTROL, name, arity)
}

/// The construct of the first of these rows that has this name and number of arguments.
fn control_among(rows: &[(&str, u32, Control)], name: &str, arity: u32) -> Option<Control>
    ensures { result ≡ kind_in (chars name.now) arity (map (λ row. (chars row.0.now, row.1, row.2)) rows.now) }
{
    for row in rows {
        if is_row(row.0, row.1, name, arity) {
            return Some(row.2);
        }
    }
    None
}

/// Whether a name with so many arguments is that of a control construct.
pub fn is_control(name: &str, arity: u32) -> bool
    ensures { result ≡ is_some (construct_of control_constructs (chars name.now) arity) }
{
    is_among(&CONTROL, name, arity)
}

/// Whether a name with so many arguments has one of these rows.
fn is_among(rows: &[(&str, u32, Control)], name: &str, arity: u32) -> bool
    ensures { result ≡ list_any (λ row. is_row_of (chars name.now) arity (chars row.0.now) row.1) rows.now }
{
    rows.iter().any(|row| is_row(row.0, row.1, name, arity))
}
