//! Lists of goals that share their tails.
ghost use Rattle.std.specs.Prelude.{◌≡◌, ◌<◌, [], ◌∷◌, IfOk, length, slice_get, drop};
ghost use Rattle.std.specs.Option.{option_copied};
ghost use Rattle.std.specs.Iterator.{YieldsFirstRef, item_count};
ghost use Rattle.clause_compile.specs.GoalChains.{chain_items};

use crate::item::Item;
use au_term::NoMemory;
use std::alloc::Global;
use std::marker::Model;
use std::sync::Arc;

/// A list of items that shares its tail with the lists that it was made from. Contracts see the list.
pub struct Goals {
    first: Option<Arc<GoalCell>>,
}

struct GoalCell {
    item: Item,
    rest: Option<Arc<GoalCell>>,
}

impl Model for Goals {
    ghost use Rattle.std.specs.Prelude.{List};
    ghost use Rattle.clause_compile.specs.declared.item.Item.{Item};
    ghost use Rattle.std.specs.Coded.{codes};
    ghost use Rattle.au_term.specs.contracts.flat.FlatTerm as flat;
    ghost use Rattle.au_term.specs.contracts.shared.Shared as shared;

    ghost Value = { List Item };

    ghost coded = { Prim.hlevel (codes, flat.the_row.coded, shared.the_row.coded) };

    ghost use Rattle.clause_compile.specs.GoalChains.{chain_items};

    ghost view = { λ g. chain_items g.first };
}

impl Drop for Goals {
    // A loop, since a list may be longer than the stack.
    fn drop(self) {
        let Goals { first } = self;
        let mut next = first;
        while let Some(shared) = next {
            next = match Arc::into_inner(shared) {
                Some(GoalCell { item: _, rest }) => rest,
                None => None,
            };
        }
    }
}

impl Goals {
    /// No items.
    pub fn empty() -> Goals
        ensures { result ≡ [] }
    {
        Goals { first: None }
    }

    /// The first item, if there is one.
    pub fn first(&self) -> Option<&Item>
        ensures { option_copied result ≡ slice_get self.now 0 }
    {
        match &self.first {
            Some(cell) => Some(&cell.item),
            None => None,
        }
    }

    /// The list without its first item.
    pub fn rest(&self) -> Result<Goals, NoMemory>
        requires { 0 < length self.now }
        ensures { IfOk result (λ goals. goals ≡ drop 1 self.now) }
    {
        match &self.first {
            Some(cell) => Ok(Goals {
                first: share_chain(&cell.rest)?,
            }),
            None => unreachable!(),
        }
    }

    /// The same list.
    pub fn share(&self) -> Result<Goals, NoMemory>
        ensures { IfOk result (λ goals. goals ≡ self.now) }
    {
        Ok(Goals {
            first: share_chain(&self.first)?,
        })
    }

    /// The list with an item in front.
    pub fn push(&self, alloc: Global, item: Item) -> Result<Goals, NoMemory>
        ensures { IfOk result (λ goals. goals ≡ item ∷ self.now) }
    {
        let rest = share_chain(&self.first)?;
        match Arc::new(alloc, GoalCell { item, rest }) {
            Ok(cell) => Ok(Goals { first: Some(cell) }),
            Err(failed) => {
                let GoalCell { item: _, rest } = failed.value;
                drop(Goals { first: rest });
                Err(NoMemory)
            }
        }
    }

    /// The items in their order.
    pub fn items(&self) -> GoalItems<'_>
        ensures { result ≡ self.now }
    {
        GoalItems { next: &self.first }
    }
}

fn share_chain(chain: &Option<Arc<GoalCell>>) -> Result<Option<Arc<GoalCell>>, NoMemory>
    ensures { IfOk result (λ shared. chain_items shared ≡ chain_items chain.now) }
{
    match chain {
        Some(cell) => Ok(Some(Arc::try_clone(cell)?)),
        None => Ok(None),
    }
}

/// The items of a list, one after another. Contracts see those that are left.
#[derive(Drop)]
pub struct GoalItems<'a> {
    next: &'a Option<Arc<GoalCell>>,
}

impl<'a> Model for GoalItems<'a> {
    ghost use Rattle.std.specs.Prelude.{List};
    ghost use Rattle.clause_compile.specs.declared.item.Item.{Item};
    ghost use Rattle.std.specs.Coded.{codes};
    ghost use Rattle.au_term.specs.contracts.flat.FlatTerm as flat;
    ghost use Rattle.au_term.specs.contracts.shared.Shared as shared;

    ghost Value = { List Item };

    ghost coded = { Prim.hlevel (codes, flat.the_row.coded, shared.the_row.coded) };

    ghost use Rattle.clause_compile.specs.GoalChains.{chain_items};

    ghost view = { λ g. chain_items g.next.now };
}

impl<'a> Iterator for GoalItems<'a> {
    type Item = &'a Item;

    ghost next_gives = { YieldsFirstRef (λ s. s) };

    ghost remaining = { item_count (λ s. s) };

    fn next(&mut self) -> Option<&'a Item> {
        match self.next {
            Some(cell) => {
                self.next = &cell.rest;
                Some(&cell.item)
            }
            None => None,
        }
    }
}
