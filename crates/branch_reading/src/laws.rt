//! Laws of what branches read as: each function does nothing, and its contract is the law.
ghost use Rattle.branch_reading.specs.NumberedReadings.{NumberedTreesAreSettled};

/// In a tree whose entries are all numbered, as those of every legal history are, each pending alternative reads as its branch,
/// and that is settled or the end of a query.
pub fn numbered_trees_are_settled()
    ensures { NumberedTreesAreSettled }
{}
