//! Laws of what is left behind a first goal: each function does nothing, and its contract is the law.
ghost use Rattle.branch_shapes.specs.RestBodies.{RestBodiesRead};
ghost use Rattle.branch_shapes.specs.CutReadings.{CutsAreRead};
ghost use Rattle.branch_shapes.specs.FrontReadings.{FrontsAreRead, OnceLeaves};

/// Below a settled branch a node of what is left behind its first goal reads as the branch without the items up to that goal.
pub fn rest_bodies_read()
    ensures { RestBodiesRead }
{}

/// Where an alternative is at the gate of a cut, such a node reads as what the cut leaves.
pub fn cuts_are_read()
    ensures { CutsAreRead }
{}

/// Where an alternative is at the front with an item that holds once and binds nothing, such a node reads as what is left.
pub fn fronts_are_read()
    ensures read { FrontsAreRead }
    ensures once { OnceLeaves }
{}
