//! Clauses that are still to be tried.
ghost use Rattle.std.specs.Prelude.{◌≡◌};
ghost use Rattle.clause_index.specs.Cursors.{is_used_up};

/// The numbers of clauses in rising order, of which the least is taken first. Contracts see them through the index that they
/// are of.
#[derive(Clone, Copy, Debug, PartialEq, Eq)]
pub enum Cursor {
    /// A procedure's clauses from this one on.
    All(Option<u32>),
    /// From these on, a procedure's clauses without a first key and those with one.
    ByKey(Option<u32>, Option<u32>),
}

impl Cursor {
    /// Whether no clause is left.
    #[inline(always)]
    pub fn is_empty(self) -> bool
        ensures { result ≡ is_used_up self }
    {
        matches!(self, Cursor::All(None) | Cursor::ByKey(None, None))
    }
}
