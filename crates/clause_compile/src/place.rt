//! Places of program text.
ghost use Rattle.std.specs.Prelude.{◌≡◌};
ghost use Rattle.clause_compile.specs.Places.{is_ground_place};

use au_term::VarNo;

/// A place of program text. A compound is its functor's place, followed by one place for each argument.
#[derive(Clone, Copy, Debug, PartialEq, Eq)]
pub enum Place {
    /// The name of a compound, by its number, and how many arguments follow.
    Functor(u32, u32),
    /// A variable, by its number in the clause.
    Var(VarNo),
    Int(i64),
    /// An atom, by the number of its name.
    Atom(u32),
    /// The compound whose functor is at this place.
    Sub(usize),
    /// The compound whose functor is at this place, where it has no variables.
    Ground(usize),
}

impl Place {
    /// Whether it says that its term has no variables.
    #[inline(always)]
    pub fn is_ground(&self) -> bool
        ensures { result ≡ is_ground_place self.now }
    {
        match self {
            Place::Int(_) | Place::Atom(_) | Place::Ground(_) => true,
            Place::Functor(_, _) | Place::Var(_) | Place::Sub(_) => false,
        }
    }
}
