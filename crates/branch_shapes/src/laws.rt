//! Laws of entries in groups: each function does nothing, and its contract is the law.
ghost use Rattle.branch_shapes.specs.GroupLaws.{GroupsAreScopes, FloorsAreScopes, GuardsAreScopes, GroupsFit};
ghost use Rattle.branch_shapes.specs.GroupLaws.{GroupsStackUp, HeightsCountEntries};
ghost use Rattle.branch_shapes.specs.GroupBodies.{BodiesArePlaced, BodiesAreSized, BodiesAreWhole};
ghost use Rattle.branch_shapes.specs.ExtendedWays.{SettledSegmentsBind, BoundSegmentsAreSettled, EmptySegmentsLead, SegmentsJoin};
ghost use Rattle.branch_shapes.specs.ExtendedWays.{WaysAreExtended, ExtendedWaysAreSettled, BranchesReadBound};
ghost use Rattle.branch_shapes.specs.ShownBodies.{ShownBodiesRead};
ghost use Rattle.branch_shapes.specs.ChoiceScopes.{ChoicesAreScopes, ItemsAreNamed, ItemsHaveHeights, ItemsAreWhole};
ghost use Rattle.branch_shapes.specs.FloorItems.{FloorItemsStay, ScopedItemsNameLevels};
ghost use Rattle.branch_shapes.specs.MeantBranches.{MeantBranchesShow, MeantEntriesAreWhole};
ghost use Rattle.branch_shapes.specs.MeantBodies.{MeantBodiesShow};
ghost use Rattle.branch_shapes.specs.GroupedRuns.{GroupedRunsRead};
ghost use Rattle.branch_shapes.specs.ShapedBodies.{ShapedBodiesMean};
ghost use Rattle.branch_shapes.specs.ShapedRuns.{ShapedRunsRead};
ghost use Rattle.branch_shapes.specs.MeantRuns.{MeantRunsShow, MeantRunsFit, MeantRunsRead};

/// A cut that keeps groups is, as a node, to that of the newest of them that is not empty, and one to the floor is to the node
/// there.
pub fn groups_are_scopes()
    ensures groups { GroupsAreScopes }
    ensures floor { FloorsAreScopes }
    ensures guards { GuardsAreScopes }
{}

/// Newer groups are over older ones, and the height that keeps all older ones is the number of their entries over the floor.
pub fn groups_stack_up()
    ensures stack { GroupsStackUp }
    ensures heights { HeightsCountEntries }
{}

/// Entries in groups become nodes, one for each group that is not empty.
pub fn groups_fit_nodes()
    ensures { GroupsFit }
{}

/// Bodies that read as the groups make the nodes that the run becomes.
pub fn bodies_make_nodes()
    ensures placed { BodiesArePlaced }
    ensures sized { BodiesAreSized }
    ensures whole { BodiesAreWhole }
{}

/// Segments are settled where they bind what some substitution has. One without bindings leads nowhere else, and one with the
/// bindings of two leads as far as both.
pub fn settled_segments_bind()
    ensures bind { SettledSegmentsBind }
    ensures settled { BoundSegmentsAreSettled }
    ensures empty { EmptySegmentsLead }
    ensures join { SegmentsJoin }
{}

/// The way to a branch whose segments lead on from what is bound above it binds that to which they lead, and the branch reads as
/// what is left to do on it with that applied.
pub fn branches_read_bound()
    ensures extended { WaysAreExtended }
    ensures settled { ExtendedWaysAreSettled }
    ensures read { BranchesReadBound }
{}

/// Bodies whose branches have left to do what the entries of a run are read as these.
pub fn shown_bodies_read()
    ensures { ShownBodiesRead }
{}

/// Scopes that are numbers of choice points are, by the nodes that the groups become, the nodes of these choice points.
pub fn choices_are_scopes()
    ensures choices { ChoicesAreScopes }
    ensures items { ItemsAreNamed }
    ensures heights { ItemsHaveHeights }
    ensures whole { ItemsAreWhole }
{}

/// Items that name nodes of the branch, as those of a sound tree do, have numbers of its floor, and name these nodes again.
pub fn floor_items_stay()
    ensures stay { FloorItemsStay }
    ensures scoped { ScopedItemsNameLevels }
{}

/// A branch whose goals are an entry's items, cutting to the nodes of their choice points, shows that entry, and a body whose further
/// branches are such shows a group.
pub fn meant_branches_show()
    ensures show { MeantBranchesShow }
    ensures whole { MeantEntriesAreWhole }
    ensures bodies { MeantBodiesShow }
{}

/// Bodies that read as the entries to which a run has come can be published.
pub fn grouped_runs_read()
    ensures { GroupedRunsRead }
{}

/// Bodies whose branches have as goals the items of the entries to which a run has come, with the bindings to which their segments
/// lead, can be published.
pub fn meant_runs_read()
    ensures show { MeantRunsShow }
    ensures fit { MeantRunsFit }
    ensures read { MeantRunsRead }
{}

/// The bodies that are made of what choice points have left, the oldest first, mean the entries for which these stand, and can be
/// published where these are the entries of a run.
pub fn shaped_bodies_mean()
    ensures mean { ShapedBodiesMean }
    ensures read { ShapedRunsRead }
{}
