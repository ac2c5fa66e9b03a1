//! Laws of legal histories: each function does nothing, and its contract is the law.
ghost use Rattle.std.specs.Prelude.{◌≡◌, ℕ, List, Option, true};
ghost use Rattle.tree_model.specs.Levels.{Level};
ghost use Rattle.tree_model.specs.Orders.{is_cleared};
ghost use Rattle.tree_model.specs.PendingLists.{ListIsAround, FrontIsQuiet};
ghost use Rattle.tree_model.specs.LegalTrees.{HistoriesAreSound, EventsKeepTrees, HistoriesKeepTrees, HoldIsUnseen};
ghost use Rattle.tree_model.specs.Promises.{NoPrunedEffect, NeverStuck, Once};
ghost use Rattle.interleaving.specs.Steps.{PrivateIsStep, FrontIsStep};
ghost use Rattle.run_model.specs.Machine.Entries.{Entry};
ghost use Rattle.tree_model.specs.Nodes.{Status, Hold};

/// The tree after a legal history is sound: numbers differ, nodes have their shapes, and each entry looks up its way.
pub fn legal_trees_are_sound()
    ensures { HistoriesAreSound }
{}

/// Every event keeps what a legal tree keeps; so every legal history of a countable budget has it.
pub fn events_keep_trees()
    ensures event { EventsKeepTrees }
    ensures history { HistoriesKeepTrees }
{}

/// What an event changes of the world, it changes by an answer at the leftmost pending alternative.
pub fn no_pruned_effect()
    ensures { NoPrunedEffect }
{}

/// While a tree has not ended and nobody has a task, there is one to take.
pub fn never_stuck()
    ensures { NeverStuck }
{}

/// The list of a tree round a place; where the place is cleared to a scope, credits alone are in front of it below
/// the scope.
pub fn lists_are_round_places()
    ensures round { (levels : List Level) (status : Status) → ListIsAround levels status }
    ensures quiet { (scope : Option ℕ) (levels : List Level) → is_cleared scope levels ≡ true → FrontIsQuiet scope levels }
{}

/// No alternative is claimed twice, handed out again but after it was given back to wait, or out to two workers.
pub fn handed_out_once()
    ensures { Once }
{}

/// Private inferences and those at the front are the sequential machine's, over the floor of the branch.
pub fn inferences_are_steps()
    ensures alone { PrivateIsStep }
    ensures front { FrontIsStep }
{}

/// Who holds an open entry is not seen in the list of the tree.
pub fn holds_are_unseen()
    ensures { (levels : List Level) (h k : Hold) (e : Entry) → HoldIsUnseen levels h k e }
{}
