//! The three readings of the sequential run: with heights, with heights and credits, and with names and credits.
ghost use Rattle.std.specs.Prelude.{ℕ, List};
ghost use Rattle.run_model.specs.Programs.Clauses.{Clause};
ghost use Rattle.run_model.specs.Programs.Jobs.{Job};
ghost use Rattle.interleaving.specs.SequentialHeights.{IsHeightRun};
ghost use Rattle.interleaving.specs.Readings.{HeightsRun, NamesAreFree, AlikeCounts, IsNamedRun, SoundExchange, SoundCut, SoundGate};
ghost use Rattle.interleaving.specs.Readings.{SoundGateInPlace, NamedAnew};

/// The sequential run is the run with heights and credits in which no credit is.
pub fn sequential_run_has_no_credit()
    ensures { (job : Job) (n : ℕ) → IsHeightRun job n }
{}

/// A list with sound names runs as the heights do for which they stand: after each inference over the same world, to the
/// list that stands for the same entries. So lists that stand for the same heights run alike, whatever their names.
pub fn names_run_as_heights()
    ensures same { (clauses : List Clause) → HeightsRun clauses }
    ensures free { (clauses : List Clause) → NamesAreFree clauses }
    ensures counts { (clauses : List Clause) → AlikeCounts clauses }
{}

/// The sequential run is the run by names of its first query's list.
pub fn sequential_run_has_names()
    ensures { (job : Job) (n : ℕ) → IsNamedRun job n }
{}

/// Where a segment is exchanged for one that is sound where it is, what is in front stays sound. A cut in place and a
/// gate leave sound names.
pub fn names_stay_sound()
    ensures exchange { SoundExchange }
    ensures cut { (clauses : List Clause) → SoundCut clauses }
    ensures gate { (clauses : List Clause) → SoundGate clauses }
    ensures gate_in_place { (clauses : List Clause) → SoundGateInPlace clauses }
{}

/// What a list may become may be named anew.
pub fn changed_lists_are_named_anew()
    ensures { (clauses : List Clause) → NamedAnew clauses }
{}
