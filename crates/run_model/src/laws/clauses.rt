//! Laws of clauses.
ghost use Rattle.run_model.specs.Laws.ClauseLaws.{FirstClauseTried, OthersGiveNothing};

/// A clause gives its goals where the goal and its renamed head unify, and a clause of another procedure gives nothing.
pub fn clauses_are_tried()
    ensures tried { FirstClauseTried }
    ensures others { OthersGiveNothing }
{}
