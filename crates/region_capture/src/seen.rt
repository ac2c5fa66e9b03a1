//! Which variables were seen.
ghost use Rattle.std.specs.Prelude.{◌≡◌, ◌<◌, ◌≤◌, false, true, get_or, length, replicate, set, IfOk, OnOk};

use au_term::NoMemory;
use std::alloc::Global;
use std::collections::BTreeSet;
use std::marker::Model;

/// Of each variable below a number whether it was seen. Of those below a first one, of which there are many, few are: these are held apart,
/// so that they cost nothing where they are not.
#[derive(Drop)]
pub(crate) struct SeenVariables {
    first: u32,
    older: BTreeSet<u32>,
    later: Vec<bool>,
}

impl Model for SeenVariables {
    ghost use Rattle.std.specs.Prelude.{Bool, List, ◌++◌};
    ghost use Rattle.std.specs.Ordering.{nat_cmp};
    ghost use Rattle.std.specs.BTreeSet.{contains};
    ghost use Rattle.region_capture.specs.SeenVariables.{told_below};

    ghost Value = { List Bool };

    ghost view = { λ s. told_below (contains nat_cmp s.older) s.first ++ s.later.items };
}

impl SeenVariables {
    /// None of those below a number, of which those from a first one on are held as a table.
    pub(crate) fn new(alloc: Global, first: u32, next: u32) -> Result<SeenVariables, NoMemory>
        ensures { IfOk result (λ seen. seen ≡ replicate next false) }
    {
        let first = first.min(next);
        let later = vec![in alloc; false; (next - first) as usize]?;
        let older = BTreeSet::new(alloc);
        Ok(SeenVariables {
            first,
            older,
            later,
        })
    }

    /// Whether a variable was seen.
    pub(crate) fn has(&self, variable: u32) -> bool
        requires { variable < length self.now }
        ensures { result ≡ get_or self.now variable false }
    {
        if variable < self.first {
            self.older.contains(&variable)
        } else {
            self.later[(variable - self.first) as usize]
        }
    }

    /// Sees a variable.
    pub(crate) fn see(&mut self, variable: u32) -> Result<(), NoMemory>
        requires { variable < length self.old }
        ensures { OnOk result (self.new ≡ set self.old variable true) }
    {
        if variable < self.first {
            self.older.insert(variable)?;
        } else {
            self.later[(variable - self.first) as usize] = true;
        }
        Ok(())
    }

    /// Takes a variable for unseen.
    pub(crate) fn forget(&mut self, variable: u32)
        requires { variable < length self.old }
        ensures { self.new ≡ set self.old variable false }
    {
        if variable < self.first {
            self.older.remove(&variable);
        } else {
            self.later[(variable - self.first) as usize] = false;
        }
    }
}
