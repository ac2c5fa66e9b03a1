//! The alternatives of a node, from left to right.
ghost use Rattle.std.specs.Prelude.{◌≡◌, ◌≢◌, ◌<◌, ◌≤◌, ◌+◌, ◌++◌, ◌∷◌, [], length, map, slice_get, slice_set, Some, IfOk, OnOk, OnErr, MatchOption};
ghost use Rattle.std.specs.Bool.{OnTrue};
ghost use Rattle.std.specs.Option.{option_map, option_copied};
ghost use Rattle.tree_nodes.specs.Rows.{cell_view, credit_view};
ghost use Rattle.tree_nodes.specs.RowViews.{inner_of};
ghost use Rattle.tree_nodes.specs.Changes.{is_pending_cell};
ghost use Rattle.tree_nodes.specs.Gathering.{closed_in, is_shut, with_left, with_right_credits, shut_beside, with_beside};
ghost use Rattle.tree_nodes.specs.Gaps.{IsNextAfter};
ghost use Rattle.tree_nodes.specs.Held.{AreHeldAmong};
ghost use Rattle.tree_nodes.specs.Siblings.{alternative_view, closed_counts, one_open, open_count, ArePassed, CountsAs};

use crate::gaps::{Gap, no_gaps, regap, right_gap};
use crate::gather::Gathered;
use crate::held::Held;
use crate::state::{AltState, Credit};
use au_term::NoMemory;
use std::alloc::Global;
use std::marker::Model;
use std::mem;

/// An alternative, and the inferences spent on it.
#[derive(Drop)]
pub(crate) struct Alternative {
    pub(crate) state: AltState,
    pub(crate) spent: u64,
}

impl Alternative {
    /// The node below it, if there is one.
    pub(crate) fn inner(&self) -> Option<u64>
        ensures { result ≡ inner_of (cell_view self.now.state) }
    {
        match &self.state {
            AltState::Inner(node) => Some(*node),
            _ => None,
        }
    }

    /// What it has closed with, if it has.
    pub(crate) fn credit(&self) -> Option<&Credit>
        ensures { option_map credit_view (option_copied result) ≡ closed_in (cell_view self.now.state) }
    {
        match &self.state {
            AltState::Closed(credit) => Some(credit),
            _ => None,
        }
    }

    /// Whether it has an entry.
    pub(crate) fn is_pending(&self) -> bool
        ensures { result ≡ is_pending_cell (cell_view self.now.state) }
    {
        !matches!(self.state, AltState::Inner(_) | AltState::Closed(_))
    }

    /// Whether it has closed.
    pub(crate) fn is_closed(&self) -> bool
        ensures { result ≡ is_shut (cell_view self.now.state) }
    {
        matches!(self.state, AltState::Closed(_))
    }

    // One where it has not closed.
    fn open_one(&self) -> usize
        ensures { result ≡ one_open (cell_view self.now.state) }
    {
        if self.is_closed() { 0 } else { 1 }
    }

    // The answers and inferences that it has closed with.
    fn counts(&self) -> (u64, u64)
        ensures { result ≡ closed_counts (cell_view self.now.state) }
    {
        match &self.state {
            AltState::Closed(credit) => (credit.answers, credit.inferences),
            _ => (0, 0),
        }
    }

    // Whether both have closed with the same answers and inferences.
    fn counts_as(&self, other: &Alternative) -> bool
        ensures { OnTrue result (CountsAs (cell_view self.now.state) (cell_view other.now.state)) }
    {
        self.is_closed() && other.is_closed() && self.counts() == other.counts()
    }
}

/// So many alternatives from the left have closed, with so many answers and inferences.
#[derive(Clone, Copy)]
pub struct Passed {
    pub many: usize,
    pub answers: u64,
    pub inferences: u64,
}

impl Passed {
    /// None is passed.
    pub(crate) const NONE: Passed = Passed {
        many: 0,
        answers: 0,
        inferences: 0,
    };
}

/// The alternatives of a node, how many of them are open, and how far the left has been passed: so what closes one by one
/// is never gone through again. Contracts see the alternatives.
#[derive(Drop)]
pub(crate) struct Siblings {
    items: Vec<Alternative>,
    many_open: usize,
    passed: Passed,
    gaps: Vec<Gap>,
}

impl Model for Siblings {
    ghost use Rattle.std.specs.Prelude.{ℕ, List, map};
    ghost use Rattle.std.specs.Coded.{codes};
    ghost use Rattle.au_term.specs.PrefixOrder.{term_code};
    ghost use Rattle.tree_nodes.specs.Rows.{AlternativeCell};

    ghost Value = { List (ℕ × AlternativeCell) };

    ghost coded = { Prim.hlevel (codes, term_code) };

    ghost use Rattle.tree_nodes.specs.Siblings.{alternative_view, AreTold};

    ghost view = { λ s. map alternative_view s.items.items };

    ghost invariant = { λ s. AreTold s.many_open s.passed s.gaps.items (map alternative_view s.items.items) };
}

impl Siblings {
    /// These alternatives.
    pub(crate) fn new(alloc: Global, items: Vec<Alternative>) -> Result<Siblings, NoMemory>
        ensures { IfOk result (λ all. all ≡ map alternative_view items.items) }
    {
        let gaps = no_gaps(alloc, items.len())?;
        let many_open = open_count(&items);
        let passed = pass(&items, Passed::NONE);
        Ok(Siblings {
            items,
            many_open,
            passed,
            gaps,
        })
    }

    /// How many there are.
    pub(crate) fn len(&self) -> usize
        ensures { result ≡ length self.now }
    {
        self.items.len()
    }

    /// The alternative with an index.
    pub(crate) fn at(&self, index: usize) -> &Alternative
        requires { index < length self.now }
        ensures { slice_get self.now index ≡ Some (alternative_view result.now) }
    {
        &self.items[index]
    }

    /// Alternatives at the left that have closed, as far as they were passed.
    pub(crate) fn passed(&self) -> Passed
        ensures { ArePassed self.now result }
    {
        self.passed
    }

    /// What they count for.
    pub(crate) fn held(&self) -> Held
        ensures { AreHeldAmong result self.now }
    {
        held_by(&self.items)
    }

    /// The next one that may be open; those between have closed.
    pub(crate) fn after(&self, index: usize) -> usize
        requires { index < length self.now }
        ensures next { IsNextAfter self.now index result }
        ensures within { result ≤ length self.now }
    {
        let right = right_gap(&self.gaps, index);
        right.saturating_add(index + 1).min(self.items.len())
    }

    /// Whether all but this one have closed.
    pub(crate) fn shut_beside(&self, index: usize) -> bool
        requires { index < length self.now }
        ensures { result ≡ shut_beside index self.now }
    {
        self.many_open == self.items[index].open_one()
    }

    /// Adds what is closed on both sides of one to its credit.
    pub(crate) fn gather_beside(
        &self,
        index: usize,
        gathered: &mut Gathered,
    ) -> Result<(), NoMemory>
        requires { index < length self.now }
        ensures sum { OnOk result (gathered.new ≡ with_beside index self.now gathered.old) }
        ensures some { OnErr result ((with_beside index self.now gathered.old).records ≢ []) }
    {
        gather_right(&self.items[index + 1..], gathered)?;
        gather_left(&self.items[..index], gathered)
    }

    /// Puts another in place of one.
    pub(crate) fn put(&mut self, index: usize, alternative: Alternative)
        requires { index < length self.old }
        ensures { self.new ≡ slice_set self.old index (alternative_view alternative) }
    {
        // The proof reads off that the number of the open ones fits.
        let _many = self.items.len();
        let now = alternative.open_one();
        let shut = alternative.is_closed();
        let from = self.passed_with(index, &alternative);
        let before = mem::replace(&mut self.items[index], alternative);
        self.many_open = self.many_open - before.open_one() + now;
        self.passed = pass(&self.items, from);
        regap(&mut self.gaps, index, before.is_closed(), shut);
        let_go(before);
    }

    // What stays passed where another is put in place of one.
    fn passed_with(&self, index: usize, alternative: &Alternative) -> Passed
        requires { index < length self.now }
        ensures { ArePassed (slice_set self.now index (alternative_view alternative.now)) result }
    {
        if index < self.passed.many && !self.items[index].counts_as(alternative) {
            Passed::NONE
        } else {
            self.passed
        }
    }

    /// Takes off the last one.
    pub(crate) fn pop(&mut self) -> Option<Alternative>
        ensures { MatchOption result (self.old ≡ []) (λ a. self.old ≡ self.new ++ alternative_view a ∷ []) }
    {
        let last = self.items.pop()?;
        self.many_open -= last.open_one();
        if self.passed.many > self.items.len() {
            self.passed = Passed::NONE;
        }
        Some(last)
    }
}

fn open_count(items: &[Alternative]) -> usize
    ensures count { result ≡ open_count (map alternative_view items.now) }
    ensures bound { result ≤ length items.now }
{
    let mut open = 0;
    for alternative in items {
        open += alternative.open_one();
    }
    open
}

fn held_by(items: &[Alternative]) -> Held
    ensures { AreHeldAmong result (map alternative_view items.now) }
{
    let mut held = Held::NONE;
    for alternative in items {
        held = held.with(Held::of(&alternative.state));
    }
    held
}

// Passes what has closed, from here on.
fn pass(items: &[Alternative], from: Passed) -> Passed
    requires { ArePassed (map alternative_view items.now) from }
    ensures { ArePassed (map alternative_view items.now) result }
{
    let mut passed = from;
    while passed.many < items.len() && items[passed.many].is_closed() {
        let (answers, inferences) = items[passed.many].counts();
        passed = Passed {
            many: passed.many + 1,
            answers: passed.answers.saturating_add(answers),
            inferences: passed.inferences.saturating_add(inferences),
        };
    }
    passed
}

fn gather_left(alternatives: &[Alternative], gathered: &mut Gathered) -> Result<(), NoMemory>
    ensures sum { OnOk result (gathered.new ≡ with_left (map alternative_view alternatives.now) gathered.old) }
    ensures some { OnErr result ((with_left (map alternative_view alternatives.now) gathered.old).records ≢ []) }
{
    for i in 0..alternatives.len() {
        if let Some(credit) = alternatives[alternatives.len() - 1 - i].credit() {
            gathered.add_left(credit)?;
        }
    }
    Ok(())
}

fn gather_right(alternatives: &[Alternative], gathered: &mut Gathered) -> Result<(), NoMemory>
    ensures sum { OnOk result (gathered.new ≡ with_right_credits gathered.old (map alternative_view alternatives.now)) }
    ensures some { OnErr result ((with_right_credits gathered.old (map alternative_view alternatives.now)).records ≢ []) }
{
    for alternative in alternatives {
        if let Some(credit) = alternative.credit() {
            gathered.add_right(credit)?;
        }
    }
    Ok(())
}

// A call of its own keeps the cases of a gate out of the proofs of its callers.
pub(crate) fn let_go(_alternative: Alternative) {}
