//! The cell of a variable.

/// What a variable is bound to.
#[derive(Clone, Copy, Debug, PartialEq, Eq)]
pub enum BindingCell {
    /// It is not bound.
    Free,
    /// A variable with a smaller number.
    Var(u32),
    Int(i64),
    /// An atom, by the number of its name.
    Atom(u32),
    /// The compound at a place of the program's text, and what is added to its variables.
    Compound(u32, u32),
}
