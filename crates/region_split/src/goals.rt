//! Bodies and goals before what follows at a position.
ghost use Rattle.std.specs.Prelude.{◌≡◌, ◌≤◌, IfOk, OnErr, length};
ghost use Rattle.au_term.specs.Term.{var_bound};
ghost use Rattle.au_model.specs.Terms.Each.{Each};
ghost use Rattle.region_split.specs.ChoicePoints.{IsMarkOf};
ghost use Rattle.region_split.specs.Regions.{IsItemHere, IsPositionOver};
ghost use Rattle.region_split.specs.StackOperations.{item_here, AddsFrame, PutsBefore, PutsGoals};

use crate::frame::{Frame, FrameBody, FrameItem, Position};
use crate::region::Region;
use au_term::{NoMemory, Shared};

impl Region {
    /// Makes a frame of a body of the text, with a number added to its variables, and gives the frame's number.
    #[inline(always)]
    pub(crate) fn push_body(
        &mut self,
        base: u32,
        cut: u32,
        after: Position,
    ) -> Result<u32, NoMemory>
        requires { after.frame ≤ length self.old.frames }
        ensures ok { IfOk result (AddsFrame self.old self.new (record { body = FrameBody.Text base; cut = cut; after = after })) }
        ensures err { OnErr result (self.new ≡ self.old) }
    {
        let body = FrameBody::Text(base);
        self.push_frame(Frame { body, cut, after })
    }

    /// Puts an item with its scope before what follows at a position, and gives the position at which it is left.
    #[inline]
    pub fn push_item(
        &mut self,
        item: FrameItem,
        cut: u32,
        after: Position,
    ) -> Result<Position, NoMemory>
        requires item { IsItemHere self.old item }
        requires mark { IsMarkOf self.old.choices cut item }
        requires after { IsPositionOver self.old cut after }
        ensures ok { IfOk result (PutsBefore self.old self.new (item_here self.old item cut) cut after) }
        ensures err { OnErr result (self.new ≡ self.old) }
    {
        let body = FrameBody::One(item);
        let frame = self.push_frame(Frame { body, cut, after })?;
        Ok(Position { frame, at: 0 })
    }

    /// Puts goals, which are copied in, before what follows at a position, in which a cut leaves so many choice points.
    pub fn push_goals(
        &mut self,
        goals: &[Shared],
        cut: u32,
        after: Position,
    ) -> Result<Position, NoMemory>
        requires goals { Each (λ t. var_bound t ≤ self.old.store.now.next) goals.now }
        requires after { IsPositionOver self.old cut after }
        ensures { IfOk result (PutsGoals self.old self.new goals.now cut after) }
    {
        let mut position = after;
        let mut left = goals.len();
        while left > 0 {
            left -= 1;
            let value = self.copy_in(&goals[left])?;
            position = self.push_item(FrameItem::Goal(value), cut, position)?;
        }
        Ok(position)
    }
}
