//! Prefix and End of every legal history.
ghost use Rattle.tree_model.specs.Promises.{Prefix, End};
ghost use Rattle.tree_model.specs.PendingLists.{pending_list};
ghost use Rattle.interleaving.specs.Sound.{IsSound};
ghost use Rattle.tree_model.specs.SoundTrees.{IsSoundTree};
ghost use Rattle.tree_model.specs.CaughtTrees.{IsCaughtTree};
ghost use Rattle.tree_model.specs.TreeStates.{TreeState};

/// What a legal history has written is a front of the sequential text, and its world is the sequential one at its clock;
/// this holds of every budget of 64 bits.
pub fn histories_keep_prefixes()
    ensures { Prefix }
{}

/// A legal history that has ended has the sequential text, ending and counts.
pub fn histories_end_right()
    ensures { End }
{}

/// The list of a tree has sound names.
pub fn lists_have_sound_names()
    ensures { (t : TreeState) → IsSoundTree t → IsCaughtTree t → IsSound (pending_list t.root) }
{}
