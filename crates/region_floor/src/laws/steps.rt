//! What each step over a bare floor is over the floor for which it stands.
ghost use Rattle.std.specs.Prelude.{◌≡◌, ℕ, List, length};
ghost use Rattle.au_term.specs.Term.{Term};
ghost use Rattle.au_model.specs.Terms.Substitutions.{Substitution};
ghost use Rattle.run_model.specs.Programs.Clauses.{Clause};
ghost use Rattle.run_model.specs.Goals.GoalOutcomes.{outcome_of};
ghost use Rattle.run_model.specs.Machine.Items.{Continuation, resolve_continuation};
ghost use Rattle.run_model.specs.Machine.Entries.{Entry};
ghost use Rattle.run_model.specs.Machine.FreeSteps.{take_free_steps};
ghost use Rattle.tree_model.specs.Levels.{Level};
ghost use Rattle.region_floor.specs.Deferred.{Deferred, joined_continuation, all_deferred, deferring, IsBoundNow};
ghost use Rattle.region_floor.specs.BareFloors.{AreOwn, bare_stack, RestsPrivately};
ghost use Rattle.region_floor.specs.BallLaws.{BallsArePrivate, BallsAreGates, BallsLand};
ghost use Rattle.region_floor.specs.GateLaws.{WorldGoalsAreGates, HaltsAreGates, CutsAreGates, AnswersAreGates, RemovalsAreGates, GoalsLoad};
ghost use Rattle.region_floor.specs.GateLaws.{CatchMarksSkip, ResultsAreGiven};
ghost use Rattle.region_floor.specs.RunLaws.{RunStarts, GoalsRest, RunGoesOn, TopsAreOwn, EndsAreBare, NothingIsBare};
ghost use Rattle.region_floor.specs.RunLaws.{OwnAreOver, OwnAreCounted};
ghost use Rattle.region_floor.specs.PrivateLaws.{KeepsClauses, ControlsArePrivate, SolutionsArePrivate};

/// Where all that is left to do is deferred, it is what the region stands for, and bindings reach what is deferred.
pub fn deferred_items_are_left()
    ensures all { (f : Continuation ℕ) → joined_continuation (all_deferred f) (deferring f) ≡ f }
    ensures now { IsBoundNow }
    ensures bound { (s : Substitution) (d : Deferred) (f : Continuation ℕ) → resolve_continuation s (joined_continuation d f) ≡ joined_continuation d (resolve_continuation s f) }
{}

/// The free steps of own entries over a bare floor leave own entries that stand for what comes to the same rest.
pub fn free_steps_are_private()
    ensures { (d : Deferred) (levels : List Level) (own : List Entry) → AreOwn (length levels) own → RestsPrivately d levels own (take_free_steps (bare_stack levels own)) }
{}

/// No solution of a goal that asks no world removes a clause.
pub fn solutions_remove_nothing()
    ensures { (clauses : List Clause) (goal : Term) (next : ℕ) → KeepsClauses (outcome_of clauses goal next) }
{}

/// What takes the place of a control construct, but for a cut to the floor, and of a goal with solutions is one inference
/// of the private run.
pub fn goals_are_private()
    ensures controls { ControlsArePrivate }
    ensures solutions { SolutionsArePrivate }
{}

/// A ball that lands above a bare floor is one inference of the private run, and one that does not is a gate; it does one
/// or the other.
pub fn balls_land_alike()
    ensures above { BallsArePrivate }
    ensures below { BallsAreGates }
    ensures either { BallsLand }
{}

/// A goal of the world, one that halts and a cut to the floor are gates.
pub fn goals_are_gates()
    ensures world { WorldGoalsAreGates }
    ensures halt { HaltsAreGates }
    ensures cut { CutsAreGates }
{}

/// Where nothing but what is deferred is left on top: an answer or a removal is a gate, goals in one scope are
/// loaded, the end of what a catch guards is skipped, and a result is given to its findall.
pub fn deferred_items_come_next()
    ensures answer { AnswersAreGates }
    ensures removal { RemovalsAreGates }
    ensures goals { GoalsLoad }
    ensures mark { CatchMarksSkip }
    ensures result { ResultsAreGiven }
{}

/// The private run starts with all deferred, rests where a goal is on top, and goes on by each inference.
pub fn regions_run_privately()
    ensures start { RunStarts }
    ensures rest { GoalsRest }
    ensures next { RunGoesOn }
{}

/// What is on top of a bare stack is an own entry, or the end that is there where no own entry is left; the own entries are
/// those over the bare floor.
pub fn tops_are_own()
    ensures top { TopsAreOwn }
    ensures end { EndsAreBare }
    ensures none { NothingIsBare }
    ensures over { OwnAreOver }
    ensures count { OwnAreCounted }
{}
