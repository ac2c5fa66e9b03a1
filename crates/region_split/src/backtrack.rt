//! Backtracking.
ghost use Rattle.std.specs.Prelude.{◌≡◌, ◌<◌, IfOk, OnOk, length, option_map};
ghost use Rattle.region_split.specs.declared.choice.Resumed.TheVariants.{At};
ghost use Rattle.region_split.specs.Backtracking.{Resumes, TakesFreeSteps, TakesNext};

use crate::choice::{Alternatives, ChoicePoint, Resumed};
use crate::frame::Position;
use crate::region::Region;
use au_term::NoMemory;

impl Region {
    /// What goes on where a branch has ended: the first thing that a choice point has left, the newest first. What was bound
    /// and made since that choice point came is undone.
    pub fn backtrack(&mut self) -> Result<Resumed, NoMemory>
        ensures resumes { IfOk result (Resumes self.old self.new) }
        ensures steps { IfOk result (TakesFreeSteps self.old self.new) }
        ensures text { OnOk result (self.new.text ≡ self.old.text) }
        ensures floor { OnOk result (self.new.store.floor ≡ self.old.store.floor) }
    {
        while self.height() > 0 {
            match self.take_next()? {
                Some(next) => return Ok(next),
                None => {}
            }
        }
        Ok(Resumed::AllDone)
    }

    /// Takes what the newest choice point has next, and gives what goes on there, if anything does.
    fn take_next(&mut self) -> Result<Option<Resumed>, NoMemory>
        requires { 0 < length self.old.choices }
        ensures takes { IfOk result (TakesNext self.old self.new) }
        ensures text { OnOk result (self.new.text ≡ self.old.text) }
        ensures floor { OnOk result (self.new.store.floor ≡ self.old.store.floor) }
    {
        let cut = self.scope()? - 1;
        if let Some(trial) = self.next_clause() {
            let reached = self.try_clause(trial, cut)?;
            return Ok(resumed_at(reached));
        }
        if let Some((solution, after)) = self.next_solution() {
            let reached = self.try_solution(&solution, after, cut)?;
            return Ok(resumed_at(reached));
        }
        let ChoicePoint {
            alternatives,
            after,
            frames: _,
        } = self.take_newest();
        match alternatives {
            Alternatives::Clauses { .. } => unreachable!(),
            Alternatives::Solutions(_) => Ok(None),
            Alternatives::Elsewhere => Ok(Some(Resumed::At(after))),
            Alternatives::Catch { .. } => Ok(None),
            Alternatives::Findall { list, results } => Ok(Some(Resumed::FindallDone {
                list,
                results,
                after,
            })),
            Alternatives::QueryEnd => Ok(Some(Resumed::QueryDone)),
        }
    }
}

/// A position at which what is left goes on, if there is one.
fn resumed_at(reached: Option<Position>) -> Option<Resumed>
    ensures { result ≡ option_map At reached }
{
    match reached {
        Some(position) => Some(Resumed::At(position)),
        None => None,
    }
}
