//! How the list of what is left to do may be changed.
ghost use Rattle.std.specs.Prelude.{◌≡◌, ℕ, Bool, List, [], Some};
ghost use Rattle.run_model.specs.Programs.Clauses.{Clause};
ghost use Rattle.tree_model.specs.Elements.{Name, Element};
ghost use Rattle.interleaving.specs.Scopes.{Shared, scoped};
ghost use Rattle.interleaving.specs.Segments.{Private};
ghost use Rattle.interleaving.specs.Quiet.{IsQuiet};
ghost use Rattle.interleaving.specs.Roots.{AreDistinguished};
ghost use Rattle.interleaving.specs.Laws.{AloneIsPrivate, Expansion, PrivateEarly, DoneEarly, SameAlone, QuietEarly, TakenEarly};
ghost use Rattle.interleaving.specs.Laws.{WokenEarly, CollectedEarly, OneCredit, CreditsAdd, NoCredit, EnoughCredit, CreditsPass};
ghost use Rattle.interleaving.specs.Laws.{CreditsEnd, FrontGate, FrontGateInPlace, CutInPlace, TakenInFront, RecordsGiven};

/// The names that extend one, and the names with some last numbers, belong together, and are told from others by their
/// length or by their last number.
pub fn names_are_told_apart()
    ensures { AreDistinguished }
{}

/// What a segment does privately, as a function, is a private run.
pub fn alone_is_private()
    ensures { (clauses : List Clause) → AloneIsPrivate clauses }
{}

/// A segment may be replaced by the credit of a private run of it and what that run leaves.
pub fn private_runs_expand()
    ensures alone { (clauses : List Clause) → Expansion clauses }
    ensures private { (clauses : List Clause) → PrivateEarly clauses }
{}

/// Whatever a segment does by itself may be done early, and two segments that come to the same by themselves may stand for
/// one another. So credits alone are one credit; a cut, and a ball that is caught, may be taken after credits alone; a
/// findall goes on whose goal side is credits alone; and an entry with a collect mark in front is its record.
pub fn segments_run_early()
    ensures early { (clauses : List Clause) → DoneEarly clauses }
    ensures same { (clauses : List Clause) → SameAlone clauses }
    ensures quiet { (clauses : List Clause) → QuietEarly clauses }
    ensures taken { (clauses : List Clause) → TakenEarly clauses }
    ensures woken { (clauses : List Clause) → WokenEarly clauses }
    ensures collected { (clauses : List Clause) → CollectedEarly clauses }
{}

/// Credits, and ends of scopes that nothing in front names, are one credit. Neighbouring credits may be added, an empty
/// one may be left out, and two that are greater than the inferences that are looked at can't be told apart.
pub fn credits_add()
    ensures one { (clauses : List Clause) → OneCredit clauses }
    ensures add { (clauses : List Clause) → CreditsAdd clauses }
    ensures none { (clauses : List Clause) → NoCredit clauses }
    ensures enough { (clauses : List Clause) → EnoughCredit clauses }
{}

/// Credits in front pass without a change of the world, and credits alone end with their last inference.
pub fn credits_pass()
    ensures pass { (clauses : List Clause) (xs zs : List Element) (w : Shared) → IsQuiet xs → CreditsPass clauses xs zs w }
    ensures end { (clauses : List Clause) → CreditsEnd clauses }
{}

/// A gate after credits alone is the list's next step after them.
pub fn front_gates_step()
    ensures whole { (clauses : List Clause) → FrontGate clauses }
    ensures in_place { (clauses : List Clause) → FrontGateInPlace clauses }
{}

/// After credits alone a cut, and a ball, may be taken at once; and in front of the whole list records may be given at once.
pub fn cuts_and_balls_land()
    ensures cut { (clauses : List Clause) → CutInPlace clauses }
    ensures front { (clauses : List Clause) → TakenInFront clauses }
    ensures given { (clauses : List Clause) → RecordsGiven clauses }
{}
