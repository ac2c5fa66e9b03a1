//! Laws of the engine over a bare floor: each function does nothing, and its contract is the law.
ghost use Rattle.task_region.specs.BareRegions.{EndsAreFloor};
ghost use Rattle.task_region.specs.CutGoals.{CutsAreNamed, NamedCutsCut};
ghost use Rattle.task_region.specs.EngineSteps.{LookingStands, InferenceStands, FloorCutStops};

/// What lies ahead of a region stands where its run was.
pub fn looking_ahead_stands()
    ensures { LookingStands }
{}

/// What the engine leaves of a goal stands where the run is one inference later, or stops where the run does; a cut to the
/// floor stops the run.
pub fn inferences_stand()
    ensures inference { InferenceStands }
    ensures cut { FloorCutStops }
{}

/// Where the ends of queries are under all other choice points, those of a bare floor are the oldest ones.
pub fn ends_are_the_floor()
    ensures { EndsAreFloor }
{}

/// The goals that cut to their scope are those of its name with no argument.
pub fn cuts_have_a_name()
    ensures named { CutsAreNamed }
    ensures cuts { NamedCutsCut }
{}
