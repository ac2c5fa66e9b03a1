//! Bindings, and the segments of a branch.
ghost use Rattle.std.specs.Prelude.{◌≡◌, [], ◌∷◌, ◌++◌, OnOk, OnErr};

use crate::NoMemory;
use crate::cell::VarNo;
use crate::shared::Shared;
use std::alloc::Global;
use std::marker::Model;

/// A variable and the term that it stands for.
#[derive(Drop)]
pub struct Binding {
    pub var: VarNo,
    pub value: Shared,
}

/// Bindings in the order in which they were made, which contracts see as their list.
#[derive(Drop)]
pub struct Bindings {
    list: Vec<Binding>,
}

impl Model for Bindings {
    ghost use Rattle.std.specs.Prelude.{List};
    ghost use Rattle.au_term.specs.declared.segment.Binding.{Binding};
    ghost use Rattle.std.specs.Coded.{codes};
    ghost use Rattle.au_term.specs.contracts.shared.Shared as e;

    ghost Value = { List Binding };

    ghost coded = { Prim.hlevel (codes, e.the_row.coded) };

    ghost view = { λ b. b.list.items };
}

impl Bindings {
    /// No bindings.
    pub fn new(alloc: Global) -> Bindings
        ensures { result ≡ [] }
    {
        Bindings {
            list: Vec::new(alloc),
        }
    }

    /// Appends a binding.
    pub fn push(&mut self, binding: Binding) -> Result<(), NoMemory>
        ensures ok { OnOk result (self.new ≡ self.old ++ binding ∷ []) }
        ensures err { OnErr result (self.new ≡ self.old) }
    {
        self.list.push(binding)?;
        Ok(())
    }

    /// The bindings.
    pub fn as_slice(&self) -> &[Binding]
        ensures { result.now ≡ self.now }
    {
        &self.list
    }
}

/// The variable numbers that one edge of a branch took, `vars` of them from `base` on, and the
/// bindings that were made there.
#[derive(Drop)]
pub struct Segment {
    pub base: VarNo,
    pub vars: u64,
    pub bindings: Bindings,
}
