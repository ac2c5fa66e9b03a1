//! The table, and the tree for which it stands.
ghost use Rattle.std.specs.Prelude.{◌≡◌, ◌<◌, ◌≤◌, ◌+◌, ◌-◌, max, IsSome, IsOk, IfOk, OnOk, OnErr, Some, None, [], length, is_some};
ghost use Rattle.std.specs.Bool.{OnTrue, OnFalse};
ghost use Rattle.std.specs.Option.{option_map, option_copied};
ghost use Rattle.tree_model.specs.EventViews.{place_view};
ghost use Rattle.tree_model.specs.Legality.{is_ready};
ghost use Rattle.tree_nodes.specs.Gaps.{IsNextAfter};
ghost use Rattle.tree_nodes.specs.Held.{is_waiting, HasNone};
ghost use Rattle.tree_nodes.specs.Rows.{row_of_node, node_parent, cell_at, alternatives_at, cell_view, credit_view};
ghost use Rattle.tree_nodes.specs.RowViews.{row_view, parent_view, branches_at};
ghost use Rattle.tree_nodes.specs.TreeTables.{NodesView, Stand};
ghost use Rattle.std.specs.Arc.{arc_value};
ghost use Rattle.tree_nodes.specs.Bodies.{body_view, IsWhole};
ghost use Rattle.tree_nodes.specs.Changes.{SetsCell, Fits, KeepsNumbers, Adds, CanHold, IsLonger, ClosesAt, LowersSpare, is_pending};
ghost use Rattle.tree_nodes.specs.Folds.{FoldsUpTo, ClosesWithRecords, AreWithoutRecords, IsAbove, IsDeeper};
ghost use Rattle.tree_nodes.specs.Fronts.{HasOpenLeft, KeepsFront, IsFront, IsNextOf};
ghost use Rattle.tree_nodes.specs.Siblings.{ArePassed, alternative_view};
ghost use Rattle.tree_nodes.specs.Puts.{inner_at};
ghost use Rattle.tree_nodes.specs.Staying.{StayMade};
ghost use Rattle.tree_nodes.specs.TakingBack.{IsTakenBack, TakesBack};
ghost use Rattle.tree_nodes.specs.Gathering.{IsFoldStep, FoldsWithRecords, Gathers, GathersRecords, is_shut_at};

use crate::body::NodeBody;
use crate::cells::{first_after, link_cell, put_cell};
use crate::front::{Front, last_of, retreat};
use crate::gather::Gathered;
use crate::row::{Row, Slot};
use crate::siblings::{Alternative, Passed};
use crate::state::{AltState, Credit};
use crate::table::Table;
use au_term::NoMemory;
use std::alloc::Global;
use std::marker::Model;
use std::sync::Arc;
use tree_model::AltRef;

/// The nodes of a tree. Contracts see the table, and speak of the tree for which it stands.
#[derive(Drop)]
pub struct Nodes {
    pub(crate) table: Table,
    first: Option<u64>,
    live: u64,
    spare: u64,
    front: Vec<Front>,
    alloc: Global,
}

impl Model for Nodes {
    ghost use Rattle.tree_nodes.specs.TreeTables.{NodesView};
    ghost use Rattle.std.specs.Coded.{codes};
    ghost use Rattle.au_term.specs.PrefixOrder.{term_code};
    ghost use Rattle.au_term.specs.contracts.flat.FlatTerm as flat;
    ghost use Rattle.au_term.specs.contracts.shared.Shared as shared;

    ghost Value = { NodesView };

    ghost coded = { Prim.hlevel (codes, term_code, flat.the_row.coded, shared.the_row.coded) };

    ghost use Rattle.tree_nodes.specs.Fronts.{AreKept};

    ghost view = { λ s. record { rows = s.table; first = s.first; live = s.live; spare = s.spare } };

    ghost invariant = { λ s. AreKept (record { rows = s.table; first = s.first; live = s.live; spare = s.spare }) s.front.items };
}

impl Nodes {
    /// No nodes.
    pub fn new(alloc: Global) -> Nodes
        ensures { result ≡ record { rows = []; first = None; live = 0; spare = 0 } }
    {
        Nodes {
            table: Table::new(alloc),
            first: None,
            live: 0,
            spare: 0,
            front: Vec::new(alloc),
            alloc,
        }
    }

    /// Where the nodes take their memory.
    pub fn allocator(&self) -> Global {
        self.alloc
    }

    /// How many nodes there are.
    pub fn live(&self) -> u64
        ensures live { result ≡ self.now.live }
        ensures sound { Stand self.now }
    {
        self.live
    }

    /// How many numbers have been drawn.
    pub fn drawn(&self) -> u64
        ensures { result ≡ length self.now.rows }
    {
        self.table.len() as u64
    }

    /// How many closings are provided for.
    pub fn spare(&self) -> u64
        ensures { result ≡ self.now.spare }
    {
        self.spare
    }

    /// Provides for so many closings at least.
    pub fn reserve(&mut self, closings: u64) -> Result<(), NoMemory>
        ensures ok { OnOk result (self.new ≡ record self.old { spare = max self.old.spare closings }) }
        ensures err { OnErr result (self.new ≡ self.old) }
        ensures made { StayMade self.old.rows self.new.rows }
    {
        self.spare = self.spare.max(closings);
        Ok(())
    }

    /// The node that has no parent.
    pub fn first(&self) -> Option<u64>
        ensures { result ≡ self.now.first }
    {
        self.first
    }

    fn row(&self, node: u64) -> Option<&Row>
        ensures row { option_map row_view (option_copied result) ≡ row_of_node self.now.rows node }
        ensures branches { length (alternatives_at (row_of_node self.now.rows node)) ≤ length (branches_at (row_of_node self.now.rows node)) }
    {
        self.table.row(node)
    }

    /// Whether a node is there.
    pub fn has(&self, node: u64) -> bool
        ensures { result ≡ is_some (row_of_node self.now.rows node) }
    {
        self.row(node).is_some()
    }

    /// The alternative that a node is below, if it is below one.
    pub fn parent(&self, node: u64) -> Option<AltRef>
        requires { IsSome (row_of_node self.now.rows node) }
        ensures parent { node_parent self.now.rows node ≡ Some (parent_view result) }
        ensures above { IsAbove self.now.rows (parent_view result) node }
    {
        // The proof reads off that there is a tree.
        let _live = self.live();
        match self.row(node) {
            Some(row) => row.parent,
            None => unreachable!(),
        }
    }

    /// What a node was made from.
    pub fn body(&self, node: u64) -> &Arc<NodeBody>
        requires { IsSome (row_of_node self.now.rows node) }
        ensures body { option_map (λ r. r.body) (row_of_node self.now.rows node) ≡ Some (body_view (arc_value result.now)) }
        ensures branches { length (alternatives_at (row_of_node self.now.rows node)) ≤ length (body_view (arc_value result.now)).branches }
    {
        match self.row(node) {
            Some(row) => &row.body,
            None => unreachable!(),
        }
    }

    /// How many alternatives a node has; none where it is gone.
    pub fn width(&self, node: u64) -> u32
        ensures { result ≡ length (alternatives_at (row_of_node self.now.rows node)) }
    {
        self.table.width(node)
    }

    /// Alternatives at the left of a node that have closed, as far as they were passed.
    pub fn passed(&self, node: u64) -> Passed
        ensures { ArePassed (alternatives_at (row_of_node self.now.rows node)) result }
    {
        match self.row(node) {
            Some(row) => row.alternatives.passed(),
            None => Passed::NONE,
        }
    }

    /// The next alternative of a node that may be open; those between have closed.
    pub fn after(&self, at: AltRef) -> u32
        requires { IsSome (cell_at self.now.rows (place_view at)) }
        ensures next { IsNextAfter (alternatives_at (row_of_node self.now.rows at.node)) at.alternative result }
        ensures within { result ≤ length (alternatives_at (row_of_node self.now.rows at.node)) }
    {
        self.table.after(at)
    }

    /// Whether an alternative may be ready; none is where not.
    pub fn may_have_ready(&self) -> bool
        ensures { OnFalse result (HasNone is_ready self.now.rows) }
    {
        self.table.may_have_ready()
    }

    /// Whether an alternative may wait; none does where not.
    pub fn may_have_waiting(&self) -> bool
        ensures { OnFalse result (HasNone is_waiting self.now.rows) }
    {
        self.table.may_have_waiting()
    }

    /// Whether an alternative is there.
    pub fn has_alternative(&self, at: AltRef) -> bool
        ensures { result ≡ is_some (cell_at self.now.rows (place_view at)) }
    {
        at.alternative < self.width(at.node)
    }

    /// The node below an alternative, if there is one.
    pub fn below(&self, at: AltRef) -> Option<u64>
        requires { IsSome (cell_at self.now.rows (place_view at)) }
        ensures below { result ≡ inner_at (cell_at self.now.rows (place_view at)) }
        ensures deeper { IsDeeper self.now.rows at.node result }
    {
        // The proof reads off that there is a tree.
        let _live = self.live();
        self.alternative(at).inner()
    }

    /// Whether an alternative has an entry.
    pub fn is_pending(&self, at: AltRef) -> bool
        ensures { result ≡ is_pending (cell_at self.now.rows (place_view at)) }
    {
        self.has_alternative(at) && self.alternative(at).is_pending()
    }

    /// Whether an alternative has closed.
    pub fn is_closed(&self, at: AltRef) -> bool
        ensures { result ≡ is_shut_at (cell_at self.now.rows (place_view at)) }
    {
        self.has_alternative(at) && self.alternative(at).is_closed()
    }

    fn alternative(&self, at: AltRef) -> &Alternative
        requires { IsSome (cell_at self.now.rows (place_view at)) }
        ensures { cell_at self.now.rows (place_view at) ≡ Some (result.now.spent, cell_view result.now.state) }
    {
        match self.row(at.node) {
            Some(row) => row.alternatives.at(at.alternative as usize),
            None => unreachable!(),
        }
    }

    /// How an alternative stands.
    pub fn state(&self, at: AltRef) -> &AltState
        requires { IsSome (cell_at self.now.rows (place_view at)) }
        ensures { option_map (λ c. c.1) (cell_at self.now.rows (place_view at)) ≡ Some (cell_view result.now) }
    {
        &self.alternative(at).state
    }

    /// The inferences spent on an alternative.
    pub fn spent(&self, at: AltRef) -> u64
        requires { IsSome (cell_at self.now.rows (place_view at)) }
        ensures { option_map (λ c. c.0) (cell_at self.now.rows (place_view at)) ≡ Some result }
    {
        self.alternative(at).spent
    }

    /// Puts another state in place of an alternative's. What stood below it goes, but for the node of the new state.
    pub fn set(&mut self, at: AltRef, state: AltState, spent: u64)
        requires there { IsSome (cell_at self.old.rows (place_view at)) }
        requires fits { Fits (cell_at self.old.rows (place_view at)) (cell_view state) }
        ensures set { SetsCell self.old self.new (place_view at) spent (cell_view state) }
        ensures numbers { KeepsNumbers self.old self.new }
        ensures made { StayMade self.old.rows self.new.rows }
    {
        self.put(at, Alternative { state, spent });
    }

    /// Gives an alternative the entry of its branch back, for a worker, in place of what is below it.
    pub fn take_back(&mut self, at: AltRef, worker: u32, spent: u64)
        requires { IsSome (cell_at self.old.rows (place_view at)) }
        ensures entry { TakesBack self.old self.new (place_view at) worker spent }
        ensures numbers { KeepsNumbers self.old self.new }
        ensures made { StayMade self.old.rows self.new.rows }
    {
        let state = AltState::Taken(worker);
        self.put(at, Alternative { state, spent });
    }

    // Puts another in place of an alternative.
    fn put(&mut self, at: AltRef, alternative: Alternative)
        requires there { IsSome (cell_at self.old.rows (place_view at)) }
        requires fits { Fits (cell_at self.old.rows (place_view at)) (cell_view alternative.state) }
        ensures put { IsTakenBack self.old self.new (place_view at) (alternative_view alternative) }
        ensures numbers { KeepsNumbers self.old self.new }
        ensures made { StayMade self.old.rows self.new.rows }
    {
        let limit = self.front_limit(at, &alternative.state);
        put_cell(&mut self.table, &mut self.live, at, alternative);
        retreat(&self.table, &mut self.front, limit);
        self.advance_below(at.node, limit);
    }

    // The number past which the front may no longer be one where a state is put in place of another.
    fn front_limit(&self, at: AltRef, state: &AltState) -> u64
        requires { IsSome (cell_at self.now.rows (place_view at)) }
        ensures { KeepsFront self.now.rows (place_view at) (cell_view state.now) result }
    {
        let near = self.is_closed(at) || matches!(state, AltState::Inner(_));
        if near && !self.has_open_left(at) {
            at.node
        } else {
            u64::MAX
        }
    }

    // Whether an alternative to the left of one at its node is known to be open.
    fn has_open_left(&self, at: AltRef) -> bool
        requires { IsSome (cell_at self.now.rows (place_view at)) }
        ensures { OnTrue result (HasOpenLeft self.now.rows (place_view at)) }
    {
        let passed = self.passed(at.node);
        if at.alternative as usize <= passed.many {
            return false;
        }
        !self.is_closed(AltRef {
            node: at.node,
            alternative: passed.many as u32,
        })
    }

    /// The last node of the front: all to its left has closed.
    pub fn front(&self) -> Option<Front>
        ensures { IsFront self.now result }
    {
        last_of(&self.front)
    }

    // What is pruned one by one waits for the next change.
    fn advance_below(&mut self, node: u64, limit: u64)
        ensures { self.new ≡ self.old }
    {
        if node < limit {
            self.advance();
        }
    }

    // Goes down to the leftmost entry.
    fn advance(&mut self)
        ensures { self.new ≡ self.old }
    {
        for _i in 0..self.table.len() {
            if !self.go_down() {
                return;
            }
        }
    }

    // One node further down. Where no memory is left for it, the front stays where it is.
    fn go_down(&mut self) -> bool
        ensures { self.new ≡ self.old }
    {
        let last = last_of(&self.front);
        match self.next_front(last) {
            Some(next) => self.front.push(next).is_ok(),
            None => false,
        }
    }

    fn next_front(&self, last: Option<Front>) -> Option<Front>
        ensures { IsNextOf self.now last result }
    {
        match last {
            Some(last) => self.front_below(last),
            None => match self.first {
                Some(node) => Some(Front {
                    node,
                    answers: 0,
                    inferences: 0,
                }),
                None => None,
            },
        }
    }

    // The node below the first alternative that has not closed.
    fn front_below(&self, last: Front) -> Option<Front>
        ensures { IsNextOf self.now (Some last) result }
    {
        // The proof reads off that there is a tree.
        let _live = self.live();
        let passed = self.passed(last.node);
        if self.width(last.node) as usize <= passed.many {
            return None;
        }
        let at = AltRef {
            node: last.node,
            alternative: passed.many as u32,
        };
        let node = self.below(at)?;
        let taken = passed.inferences.saturating_add(self.spent(at));
        Some(Front {
            node,
            answers: last.answers.saturating_add(passed.answers),
            inferences: last.inferences.saturating_add(taken),
        })
    }

    /// Adds a node below an alternative that has an entry, or the first one, and gives its number.
    pub fn add(&mut self, parent: Option<AltRef>, body: Arc<NodeBody>) -> Result<u64, NoMemory>
        requires whole { IsWhole (body_view (arc_value body)) }
        requires open { CanHold self.old (parent_view parent) }
        ensures number { IfOk result (λ n. n ≡ length self.old.rows) }
        ensures added { IfOk result (λ n. Adds self.old self.new (parent_view parent) n (body_view (arc_value body))) }
        ensures grown { OnOk result (IsLonger self.old self.new) }
        ensures err { OnErr result (self.new ≡ self.old) }
        ensures made { StayMade self.old.rows self.new.rows }
    {
        let slot = Slot::new(self.alloc, parent, body)?;
        let Some(live) = self.live.checked_add(1) else {
            return Err(NoMemory);
        };
        let number = self.table.len() as u64;
        self.table.push(slot)?;
        link_cell(&mut self.table, parent, number);
        retreat(&self.table, &mut self.front, u64::MAX);
        self.first = first_after(self.first, parent, number);
        self.live = live;
        self.advance();
        Ok(number)
    }

    /// Closes an alternative, and drops what stood below it. Where all alternatives of a node below another have then
    /// closed, it folds into the alternative that it is below, and so on. It fails only where the credit with which it closes
    /// in the end has records.
    pub fn close(&mut self, at: AltRef, credit: Credit) -> Result<(), NoMemory>
        requires there { IsSome (cell_at self.old.rows (place_view at)) }
        ensures closed { OnOk result (ClosesAt self.old self.new (place_view at) (credit_view credit)) }
        ensures numbers { OnOk result (LowersSpare self.old self.new) }
        ensures err { OnErr result (self.new ≡ self.old) }
        ensures provided { OnErr result (ClosesWithRecords self.old (place_view at) (credit_view credit)) }
        ensures without { AreWithoutRecords self.old.rows → (credit_view credit).records ≡ [] → IsOk result }
        ensures made { StayMade self.old.rows self.new.rows }
    {
        let (end, total) = self.folded(at, credit)?;
        let spent = self.spent(end);
        self.set(end, AltState::Closed(total), spent);
        self.spare = self.spare.saturating_sub(1);
        Ok(())
    }

    /// Where an alternative that closes with this credit folds to, and with what.
    pub fn folded(&self, at: AltRef, credit: Credit) -> Result<(AltRef, Credit), NoMemory>
        requires { IsSome (cell_at self.now.rows (place_view at)) }
        ensures folds { IfOk result (λ f. FoldsUpTo self.now (place_view at) (credit_view credit) (place_view f.0) (credit_view f.1)) }
        ensures there { IfOk result (λ f. IsSome (cell_at self.now.rows (place_view f.0))) }
        ensures above { IfOk result (λ f. f.0.node ≤ at.node) }
        ensures provided { OnErr result (ClosesWithRecords self.now (place_view at) (credit_view credit)) }
        ensures without { AreWithoutRecords self.now.rows → (credit_view credit).records ≡ [] → IsOk result }
    {
        let mut gathered = Gathered::new(self.alloc, credit);
        let mut end = at;
        while let Some(above) = self.fold_step(end, &mut gathered)? {
            end = above;
        }
        let total = gathered.finish(self.alloc)?;
        Ok((end, total))
    }

    // Adds what is beside an alternative, where its node folds, and gives the alternative that the node is below.
    fn fold_step(&self, at: AltRef, gathered: &mut Gathered) -> Result<Option<AltRef>, NoMemory>
        requires { IsSome (cell_at self.now.rows (place_view at)) }
        ensures step { IfOk result (λ above. IsFoldStep self.now.rows (place_view at) gathered.old (parent_view above) gathered.new) }
        ensures above { IfOk result (λ above. IsAbove self.now.rows (parent_view above) at.node) }
        ensures some { OnErr result (FoldsWithRecords self.now.rows (place_view at) gathered.old) }
    {
        let Some(above) = self.parent(at.node) else {
            return Ok(None);
        };
        if !self.gather(at, gathered)? {
            return Ok(None);
        }
        gathered.spend(self.spent(above));
        Ok(Some(above))
    }

    fn gather(&self, at: AltRef, gathered: &mut Gathered) -> Result<bool, NoMemory>
        requires { IsSome (cell_at self.now.rows (place_view at)) }
        ensures sum { IfOk result (λ shut. Gathers (row_of_node self.now.rows at.node) at.alternative shut gathered.old gathered.new) }
        ensures some { OnErr result (GathersRecords (row_of_node self.now.rows at.node) at.alternative gathered.old) }
    {
        let Some(row) = self.row(at.node) else {
            unreachable!()
        };
        let index = at.alternative as usize;
        if !row.alternatives.shut_beside(index) {
            return Ok(false);
        }
        row.alternatives.gather_beside(index, gathered)?;
        Ok(true)
    }
}
