//! The law of the index: the function does nothing, and its contract is the law.
ghost use Rattle.clause_index.specs.HeadKeys.{NumbersTellApart};

/// Where no two names are the same, a goal unifies with no head that its name, number of arguments and first key do not
/// match.
pub fn numbers_tell_apart()
    ensures { NumbersTellApart }
{}
