//! Calls of goals: their clauses are tried, one after another.
ghost use Rattle.std.specs.Prelude.{◌≡◌, ◌<◌, IfOk, length, true};
ghost use Rattle.cell_store.specs.StoreView.{IsValueIn, meaning, text_in};
ghost use Rattle.au_model.specs.Terms.Forms.{is_callable};
ghost use Rattle.clause_index.specs.HeadKeys.{IsHeadKeyOf};
ghost use Rattle.region_split.specs.Candidates.{AreCandidates, IsOnlyCandidate};
ghost use Rattle.region_split.specs.Regions.{IsPositionIn, IsPositionOver};
ghost use Rattle.region_split.specs.ClauseTrials.{TriesClause, KeepsChoices, Calls};

use crate::candidates::{candidates, first_match, match_after};
use crate::choice::{Alternatives, Trial};
use crate::frame::Position;
use crate::keys::goal_numbers;
use crate::region::Region;
use crate::text::BodyItem;
use au_term::NoMemory;
use binding_array::BindingCell;
use clause_index::{Cursor, HeadKey};

impl Region {
    /// Tries a clause for a goal, in whose body a cut leaves so many choice points, and gives the position at which its body
    /// goes on if its head unifies. Where it doesn't, or out of memory, some bindings may be left: the newest choice point can
    /// be taken.
    #[inline(always)]
    pub fn try_clause(&mut self, trial: Trial, cut: u32) -> Result<Option<Position>, NoMemory>
        requires clause { trial.clause < length self.old.text.clauses }
        requires goal { IsValueIn self.old.store trial.goal }
        requires after { IsPositionOver self.old cut trial.after }
        ensures tried { IfOk result (TriesClause self.old self.new trial cut) }
        ensures kept { KeepsChoices self.old self.new }
    {
        let placed = self.text().placed(trial.clause);
        let base = self.store().next();
        self.fresh(placed.vars)?;
        let head = self.store().value(placed.head, base);
        if !self.unify_head(trial.goal, head, base)? {
            return Ok(None);
        }
        // A fact has no body that a frame would be for.
        if let Some(BodyItem::BodyEnd) = self.text().get(placed.body) {
            return Ok(Some(trial.after));
        }
        let number = self.push_body(base, cut, trial.after)?;
        Ok(Some(Position {
            frame: number,
            at: placed.body,
        }))
    }

    /// Calls a goal whose clauses are tried, and gives the position at which the first one goes on whose head unifies: that
    /// is the first that may match, if any. The others are left to a choice point; for no others there is none. A goal whose
    /// procedure has no clause in the text leaves the region as it was.
    #[inline(never)]
    pub fn call(&mut self, goal: BindingCell, after: Position) -> Result<Option<Position>, NoMemory>
        requires callable { is_callable (meaning self.old.store goal) ≡ true }
        requires goal { IsValueIn self.old.store goal }
        requires after { IsPositionIn self.old after }
        ensures { IfOk result (Calls self.old self.new goal after) }
    {
        let numbers = goal_numbers(self.store(), goal);
        self.call_by(goal, numbers, after)
    }

    /// The same by the numbers of the goal's name, its arguments and its first key.
    #[inline(always)]
    pub fn call_by(
        &mut self,
        goal: BindingCell,
        numbers: HeadKey,
        after: Position,
    ) -> Result<Option<Position>, NoMemory>
        requires goal { IsValueIn self.old.store goal }
        requires numbers { IsHeadKeyOf (text_in self.old.store).names (meaning self.old.store goal) numbers }
        requires after { IsPositionIn self.old after }
        ensures { IfOk result (Calls self.old self.new goal after) }
    {
        let left = candidates(self.text(), self.store(), goal, numbers);
        match self.text().only(left) {
            Some(clause) => self.call_only(goal, clause, after),
            None => self.call_among(goal, left, after),
        }
    }

    /// The same where one clause alone may match.
    #[inline(always)]
    fn call_only(
        &mut self,
        goal: BindingCell,
        clause: u32,
        after: Position,
    ) -> Result<Option<Position>, NoMemory>
        requires goal { IsValueIn self.old.store goal }
        requires only { IsOnlyCandidate self.old.text (meaning self.old.store goal) self.old.store.now.next clause }
        requires after { IsPositionIn self.old after }
        ensures { IfOk result (Calls self.old self.new goal after) }
    {
        let cut = self.scope()?;
        let trial = Trial {
            goal,
            clause,
            after,
        };
        self.try_clause(trial, cut)
    }

    /// The same whatever clauses are left that may match.
    #[inline(always)]
    fn call_among(
        &mut self,
        goal: BindingCell,
        left: Cursor,
        after: Position,
    ) -> Result<Option<Position>, NoMemory>
        requires goal { IsValueIn self.old.store goal }
        requires left { AreCandidates self.old.text (meaning self.old.store goal) self.old.store.now.next left }
        requires after { IsPositionIn self.old after }
        ensures { IfOk result (Calls self.old self.new goal after) }
    {
        let cut = self.scope()?;
        let mut left = left;
        let Some(clause) = first_match(self.text(), self.store(), goal, &mut left) else {
            return Ok(None);
        };
        let trial = Trial {
            goal,
            clause,
            after,
        };
        let Some(clause) = match_after(self.text(), self.store(), goal, clause, &mut left) else {
            return self.try_clause(trial, cut);
        };
        self.push_choice(Alternatives::Clauses { goal, clause, left }, after)?;
        self.try_clause(trial, cut)
    }
}
