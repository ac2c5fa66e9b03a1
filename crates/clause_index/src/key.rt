//! What tells heads and goals apart, by numbers.
ghost use Rattle.std.specs.Prelude.{◌≡◌};
ghost use Rattle.clause_index.specs.Classes.{key_class};

/// The key of a first argument: an integer, the number of an atom, or the number of a name and how many arguments follow.
#[derive(Clone, Copy, Debug, PartialEq, Eq, PartialOrd, Ord)]
pub enum NumberKey {
    Int(i64),
    Atom(u32),
    Functor(u32, u32),
}

/// The number of a head's name, how many arguments it has, and the key of the first one; none for a variable and for a head
/// without arguments.
#[derive(Clone, Copy, Debug, PartialEq, Eq)]
pub struct HeadKey {
    pub name: u32,
    pub arity: u32,
    pub first: Option<NumberKey>,
}

/// Heads with one name and number of arguments: all of them, those without a first key, or those with this one.
#[derive(Clone, Copy, Debug, PartialEq, Eq, PartialOrd, Ord)]
pub enum Class {
    Procedure(u32, u32),
    WithoutKey(u32, u32),
    WithKey(u32, u32, NumberKey),
}

impl HeadKey {
    /// The class of the heads with its name, number of arguments and first key.
    pub(crate) fn class(self) -> Class
        ensures { result ≡ key_class self }
    {
        match self.first {
            None => Class::WithoutKey(self.name, self.arity),
            Some(key) => Class::WithKey(self.name, self.arity, key),
        }
    }
}
