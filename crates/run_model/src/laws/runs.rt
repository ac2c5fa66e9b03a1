//! Laws of runs.
ghost use Rattle.std.specs.Prelude.{◌≡◌, ℕ, List};
ghost use Rattle.run_model.specs.Machine.Entries.{Entry};
ghost use Rattle.run_model.specs.Machine.FreeSteps.{take_free_steps, HasNoFreeStep};
ghost use Rattle.run_model.specs.Programs.Jobs.{Job};
ghost use Rattle.run_model.specs.Laws.RunLaws.{EndedRunStays, TextGrows, IsStopped};
ghost use Rattle.run_model.specs.Laws.Numbering.{AreEntriesNumbered};
ghost use Rattle.run_model.specs.Laws.HeightLaws.{FitHeights, KeepsLowerPart};
ghost use Rattle.run_model.specs.Machine.Runs.{seq};
ghost use Rattle.run_model.specs.Machine.States.{State, step};
ghost use Rattle.run_model.specs.Programs.Clauses.{Clause};

/// The free steps come to an end, and leave none on top. What has none stays as it is.
pub fn free_steps_end()
    ensures end { (es : List Entry) → HasNoFreeStep (take_free_steps es) }
    ensures stay { (es : List Entry) → HasNoFreeStep es → take_free_steps es ≡ es }
{}

/// A run that has ended stays as it ended.
pub fn ended_run_stays()
    ensures { (job : Job) → EndedRunStays job }
{}

/// What a run has written after fewer inferences is a front of what it has written after more.
pub fn text_grows()
    ensures { (job : Job) → TextGrows job }
{}

/// A run is stopped by its budget exactly where it has not ended by then, and counts each inference until it ends.
pub fn budget_stops()
    ensures { (job : Job) (n : ℕ) → IsStopped job n }
{}

/// All variables of an entry of a run are below its next number.
pub fn variables_are_numbered()
    ensures { (job : Job) (n : ℕ) → AreEntriesNumbered (seq job n).entries }
{}

/// An inference, and the free steps, keep the variables of all entries below their next numbers, from any state.
pub fn steps_keep_numbers()
    ensures step { (clauses : List Clause) (st : State) → AreEntriesNumbered st.entries → AreEntriesNumbered (step clauses st).entries }
    ensures free { (es : List Entry) → AreEntriesNumbered es → AreEntriesNumbered (take_free_steps es) }
{}

/// A cut keeps a lower part of the entries, and no height that an entry of a run carries passes what is under it.
pub fn heights_fit()
    ensures cut { (h : ℕ) (es : List Entry) → KeepsLowerPart h es }
    ensures fit { (job : Job) (n : ℕ) → FitHeights (seq job n).entries }
{}
