//! Frames.
ghost use Rattle.std.specs.Prelude.{◌≡◌, MatchOption};
ghost use Rattle.region_split.specs.CompoundGoals.{IsNoCompoundGoal};

use binding_array::BindingCell;

/// A place in a frame's body; frame 0 is no frame, where nothing is left to do.
#[derive(Clone, Copy, Debug, PartialEq, Eq)]
pub struct Position {
    pub frame: u32,
    pub at: u32,
}

/// An item but for its scope. Its terms are values.
#[derive(Clone, Copy, Debug, PartialEq, Eq)]
pub enum FrameItem {
    Goal(BindingCell),
    /// The goal `call(G)` of a value.
    Call(BindingCell),
    /// The goals `!`, `true` and `fail`.
    Cut,
    True,
    Fail,
    /// The end of what a catch guards, whose choice point is the newest that a cut there would leave.
    CatchEnd,
    /// What a findall collects, whose choice point is found likewise.
    Collect(BindingCell),
    /// The removal of the clause with a number.
    Removal(u64),
}

impl FrameItem {
    /// The place of the compound that it is as a goal and what is added to its variables, if it is one.
    #[inline(always)]
    pub(crate) fn compound(self) -> Option<(u32, u32)>
        ensures { MatchOption result (IsNoCompoundGoal self) (λ c. self ≡ FrameItem.Goal (BindingCell.Compound c.0 c.1)) }
    {
        let FrameItem::Goal(BindingCell::Compound(at, base)) = self else {
            return None;
        };
        Some((at, base))
    }
}

/// What a frame does before it goes on.
#[derive(Clone, Copy, Debug, PartialEq, Eq)]
pub enum FrameBody {
    /// A body of the text, by what is added to its variables.
    Text(u32),
    /// One item, at the place 0.
    One(FrameItem),
}

/// A body under way, how many choice points a cut in it leaves, and where it goes on.
#[derive(Clone, Copy, Debug, PartialEq, Eq)]
pub struct Frame {
    pub body: FrameBody,
    pub cut: u32,
    pub after: Position,
}

/// A compound that stands first at a position as a goal: its place, what is added to its variables, its scope, and the position
/// at which what follows is left.
#[derive(Clone, Copy, Debug, PartialEq, Eq)]
pub struct CompoundFirst {
    pub at: u32,
    pub base: u32,
    pub cut: u32,
    pub after: Position,
}

/// What is left at a position, by its first item.
#[derive(Clone, Copy, Debug, PartialEq, Eq)]
pub enum Left {
    /// An item and its scope; what follows is at the next place of the frame.
    First(FrameItem, u32),
    /// The body has ended: what is left is what is left at a position of an older frame.
    GoesOnAt(Position),
    Nothing,
}
