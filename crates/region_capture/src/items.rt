//! Items that are left, as they are written.
ghost use Rattle.std.specs.Prelude.{◌≡◌, ◌<◌, ◌∷◌, [], IfOk, OnErr, MatchOption, length};
ghost use Rattle.region_capture.specs.CapturedItems.{AddsItems, HasItemBefore, HasItems, captured_item};

use au_term::{NoMemory, Shared};
use std::alloc::Global;
use std::marker::Model;

/// An item that is left. Scopes and marks are numbers of choice points, as in a frame.
#[derive(Drop)]
pub enum CapturedItem {
    /// A goal, and how many choice points a cut in it leaves.
    Goal { term: Shared, cut: u32 },
    /// The end of what a catch guards, and over how many choice points the catch is.
    CatchEnd(u32),
    /// A result for a findall, and over how many choice points the findall is.
    Collect { template: Shared, over: u32 },
    /// The removal of the clause with a number.
    Removal(u64),
}

/// An item, and the number that has what follows it.
#[derive(Drop)]
pub(crate) struct ItemLink {
    pub(crate) item: CapturedItem,
    pub(crate) after: u32,
}

/// Items one before the other. Number 0 has none; each further number has an item before those of a smaller number, so that
/// what follows can be shared. Contracts see the items of each number.
#[derive(Drop)]
pub struct CapturedItems {
    links: Vec<ItemLink>,
}

impl Model for CapturedItems {
    ghost use Rattle.std.specs.Coded.{codes};
    ghost use Rattle.au_term.specs.PrefixOrder.{term_code};
    ghost use Rattle.region_capture.specs.CapturedItems.{ItemLists, linked_items, AreItemLinksFrom};

    ghost Value = { ItemLists };

    ghost coded = { Prim.hlevel (codes, term_code) };

    ghost view = { λ s. linked_items s.links.items };

    ghost invariant = { λ s. AreItemLinksFrom 1 s.links.items };
}

impl CapturedItems {
    /// No items but those of number 0.
    pub fn new(alloc: Global) -> CapturedItems
        ensures { result ≡ [] ∷ [] }
    {
        CapturedItems {
            links: Vec::new(alloc),
        }
    }

    /// How many numbers there are, from 0 on.
    pub fn numbers(&self) -> usize
        ensures { result ≡ length self.now }
    {
        self.links.len() + 1
    }

    /// The number that has none.
    pub fn nothing(&self) -> u32
        ensures { HasItems self.now result [] }
    {
        // The proof reads off that no link has the number 0.
        let _count = self.links.len();
        0
    }

    /// The first item of a number, and the number that has what follows it.
    pub fn first(&self, number: u32) -> Option<(&CapturedItem, u32)>
        requires { number < length self.now }
        ensures { MatchOption result (HasItems self.now number []) (λ f. HasItemBefore self.now number (captured_item f.0.now) f.1) }
    {
        // The proof reads off that no link has the number 0.
        let _count = self.links.len();
        if number == 0 {
            return None;
        }
        let link = &self.links[number as usize - 1];
        Some((&link.item, link.after))
    }

    /// Puts an item before those of a number, and gives the number that has them all.
    pub fn push(&mut self, item: CapturedItem, after: u32) -> Result<u32, NoMemory>
        requires { after < length self.old }
        ensures before { IfOk result (λ number. HasItemBefore self.new number (captured_item item) after) }
        ensures adds { AddsItems self.old self.new }
        ensures err { OnErr result (self.new ≡ self.old) }
    {
        let Ok(number) = u32::try_from(self.links.len() + 1) else {
            return Err(NoMemory);
        };
        self.links.push(ItemLink { item, after })?;
        Ok(number)
    }
}
