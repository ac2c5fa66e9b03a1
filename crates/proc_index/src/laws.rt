//! The law of keys: the function does nothing, and its contract is the law.
ghost use Rattle.proc_index.specs.Laws.{ToldApart};

/// A goal and a head do not unify where the keys of two arguments with one number, whichever it is, differ and neither
/// stands for all.
pub fn keys_tell_apart()
    ensures { ToldApart }
{}
