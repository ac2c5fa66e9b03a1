//! Private runs with heights, over a floor of entries that stay.
ghost use Rattle.std.specs.Prelude.{List};
ghost use Rattle.run_model.specs.Programs.Clauses.{Clause};
ghost use Rattle.interleaving.specs.OwnRuns.{OwnRuns};
ghost use Rattle.interleaving.specs.FloorLaws.{FloorIsEnough, FrontIsSame};

/// A private run with heights over a floor is one by names.
pub fn heights_run_privately()
    ensures { (clauses : List Clause) → OwnRuns clauses }
{}

/// Segments that stand for the same entries over a floor do so over any list whose scopes the floor tells apart, with
/// anything in front that names nothing of theirs.
pub fn floors_are_enough()
    ensures floor { FloorIsEnough }
    ensures front { FrontIsSame }
{}
