//! The kinds of the goals of a text.
ghost use Rattle.std.specs.Prelude.{◌≡◌, ◌<◌, IfOk, OnOk, length};
ghost use Rattle.std.specs.Arc.{arc_value};
ghost use Rattle.clause_compile.specs.AtomNumbers.{name_at};
ghost use Rattle.goal_kinds.specs.Kinds.{IsKindOf, AreFirstKinds, AreKindsFor};

use crate::kind::{GoalKind, kind_of_name};
use au_term::{Atom, NoMemory};
use clause_compile::{Code, Place};
use std::alloc::Global;
use std::collections::BTreeMap;
use std::marker::Model;

/// A name by its number, and a number of arguments.
#[derive(Clone, Copy, Debug, PartialEq, Eq, PartialOrd, Ord)]
pub(crate) struct GoalName {
    pub(crate) name: u32,
    pub(crate) arity: u32,
}

/// What goals with a name and so many arguments are.
#[derive(Clone, Copy)]
pub(crate) struct KnownKind {
    pub(crate) arity: u32,
    pub(crate) kind: GoalKind,
}

/// Kinds by names and numbers of arguments.
type Known = BTreeMap<GoalName, GoalKind>;

/// What goals are whose names are among those of a text. Contracts see these names, by their numbers.
#[derive(Drop)]
pub struct GoalKinds {
    names: Vec<Atom>,
    /// The kind of each name with one number of arguments, which is looked at first.
    first: Vec<KnownKind>,
    known: Known,
}

impl Model for GoalKinds {
    ghost use Rattle.std.specs.Prelude.{ℕ, List};
    ghost use Rattle.std.specs.Coded.{coded_list, coded_ℕ};
    ghost use Rattle.goal_kinds.specs.Kinds.{AreFirstKinds, AreKindsFor};

    ghost Value = { List (List ℕ) };

    ghost coded = { coded_list (coded_list coded_ℕ) };

    ghost view = { λ k. k.names.items };

    ghost invariant = { λ k. AreFirstKinds k.names.items k.first.items × AreKindsFor k.names.items k.known };
}

impl GoalKinds {
    /// What goals are with the names and numbers of arguments that a text has.
    pub fn new(alloc: Global, code: &Code) -> Result<GoalKinds, NoMemory>
        ensures { IfOk result (λ kinds. kinds ≡ code.now.names) }
    {
        let names = names_of(alloc, code)?;
        let mut first = kinds_of_atoms(alloc, &names)?;
        let mut known = BTreeMap::new(alloc);
        for at in 0..code.len() {
            learn(code.place(at), &names, &mut first, &mut known)?;
        }
        Ok(GoalKinds {
            names,
            first,
            known,
        })
    }

    /// How many names there are.
    #[inline(always)]
    pub fn names(&self) -> usize
        ensures { result ≡ length self.now }
    {
        self.names.len()
    }

    /// What goals with this name, by its number, and number of arguments are.
    #[inline(always)]
    pub fn kind(&self, name: u32, arity: u32) -> GoalKind
        requires { name < length self.now }
        ensures { IsKindOf (name_at self.now name) arity result }
    {
        match self.first.get(name as usize) {
            Some(first) if first.arity == arity => first.kind,
            _ => self.further_kind(name, arity),
        }
    }

    /// The same, but for the number of arguments that is looked at first.
    fn further_kind(&self, name: u32, arity: u32) -> GoalKind
        requires { name < length self.now }
        ensures { IsKindOf (name_at self.now name) arity result }
    {
        match self.known.get(&GoalName { name, arity }) {
            Some(kind) => *kind,
            None => kind_of_name(self.names[name as usize].text(), arity),
        }
    }
}

/// The names of a text, shared.
fn names_of(alloc: Global, code: &Code) -> Result<Vec<Atom>, NoMemory>
    ensures { IfOk result (λ names. names.items ≡ code.now.names) }
{
    let Ok(count) = u32::try_from(code.names()) else {
        return Err(NoMemory);
    };
    let mut names = Vec::new(alloc);
    for number in 0..count {
        names.push(code.name(number).share()?)?;
    }
    Ok(names)
}

/// What goals without arguments are, by the numbers of their names.
fn kinds_of_atoms(alloc: Global, names: &[Atom]) -> Result<Vec<KnownKind>, NoMemory>
    ensures { IfOk result (λ kinds. AreFirstKinds names.now kinds.items) }
{
    let mut kinds = Vec::new(alloc);
    for number in 0..names.len() {
        let kind = kind_of_name(names[number].text(), 0);
        kinds.push(KnownKind { arity: 0, kind })?;
    }
    Ok(kinds)
}

/// Notes what goals with the functor at a place are.
fn learn(
    place: Place,
    names: &[Atom],
    first: &mut [KnownKind],
    known: &mut Known,
) -> Result<(), NoMemory>
    requires first { AreFirstKinds names.now first.old }
    requires known { AreKindsFor names.now known.old }
    ensures first { AreFirstKinds names.now first.new }
    ensures known { OnOk result (AreKindsFor names.now known.new) }
{
    let Place::Functor(name, arity) = place else {
        return Ok(());
    };
    let at = name as usize;
    if at >= names.len() || at >= first.len() {
        return Ok(());
    }
    let kind = kind_of_name(names[at].text(), arity);
    first[at] = KnownKind { arity, kind };
    known.insert(GoalName { name, arity }, kind)?;
    Ok(())
}
