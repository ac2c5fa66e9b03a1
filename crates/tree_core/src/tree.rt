//! Trees of jobs.
ghost use Rattle.std.specs.Prelude.{◌≡◌, ◌≤◌, [], IfOk, IfSome};
ghost use Rattle.run_model.specs.Machine.Runs.{text_of, ending_of};
ghost use Rattle.tree_model.specs.Credits.{greatest};
ghost use Rattle.tree_model.specs.Events.{Stop};
ghost use Rattle.tree_model.specs.LegalTrees.{IsLegalTree};
ghost use Rattle.tree_model.specs.TreeStates.{ended, counts};
ghost use Rattle.tree_nodes.specs.Staying.{StayMade};
ghost use Rattle.public_tree.specs.PublicTrees.{is_going};
ghost use Rattle.tree_core.specs.Histories.{state_of, while_going, NodesStand};
ghost use Rattle.tree_core.specs.Openings.{IsFirstOf};
ghost use Rattle.tree_core.specs.KeptPromises.{KeepsPromises, AreFinalCounts};

use crate::brand::JobBrand;
use crate::query::{QueryGoals, first_body};
use au_term::NoMemory;
use interleaving::laws::trees::events_keep_trees;
use public_tree::PublicTree;
use public_tree::laws::promises_are_kept;
use run_model::RunEnding;
use std::alloc::Global;
use std::marker::{Model, PhantomData};
use tree_nodes::Nodes;

/// A public tree whose events are a legal history of a job.
#[derive(Drop)]
pub struct Tree<J: JobBrand> {
    pub(crate) public: PublicTree,
    of: PhantomData<J>,
}

impl<J: JobBrand> Model for Tree<J> {
    ghost use Rattle.std.specs.Coded.{codes};
    ghost use Rattle.au_term.specs.PrefixOrder.{term_code};
    ghost use Rattle.au_term.specs.contracts.flat.FlatTerm as flat;
    ghost use Rattle.au_term.specs.contracts.shared.Shared as shared;
    ghost use Rattle.tree_core.specs.Histories.{TreeView, tree_view, IsTreeOf};

    ghost Value = { TreeView };

    ghost coded = { Prim.hlevel (codes, term_code, flat.the_row.coded, shared.the_row.coded) };

    ghost view = { λ s. tree_view J.job s.public };

    ghost invariant = { λ s. IsTreeOf J.job s.public };
}

impl<J: JobBrand> Tree<J> {
    /// The tree of the job to begin with, whose first query is given.
    pub fn open(
        alloc: Global,
        first: Option<QueryGoals>,
        budget: u64,
        window: u64,
    ) -> Result<Tree<J>, NoMemory>
        requires { IsFirstOf J.job.queries first }
        ensures { IfOk result (λ t. t.history ≡ record { job = J.job; budget = budget; window = window; events = [] }) }
    {
        let body = first_body(alloc, first)?;
        let public = PublicTree::open(alloc, body, budget, window)?;
        Ok(Tree {
            public,
            of: PhantomData,
        })
    }

    /// What every tree keeps; the call does nothing.
    pub fn keeps_promises(&self)
        ensures promises { KeepsPromises self.now.history }
        ensures nodes { NodesStand self.now }
        ensures countable { self.now.history.budget ≤ greatest }
    {
        promises_are_kept();
        // The proof reads the fields' invariant.
        let _public = &self.public;
    }

    /// That the tree keeps what the tree of every legal history keeps; the call does nothing.
    pub fn stays_legal(&self)
        ensures { IsLegalTree (state_of self.now.history) }
    {
        events_keep_trees();
        // The proof reads the fields' invariant.
        let _public = &self.public;
    }

    /// The nodes.
    pub fn nodes(&self) -> &Nodes
        ensures { result.now ≡ self.now.nodes }
    {
        self.public.nodes()
    }

    /// Whether the tree has neither ended nor been stopped.
    pub fn is_going(&self) -> bool
        ensures { result ≡ is_going (state_of self.now.history) }
    {
        !self.public.is_stopped() && self.public.ended().is_none()
    }

    /// Whether the tree was stopped.
    pub fn is_stopped(&self) -> bool
        ensures { result ≡ (state_of self.now.history).stopped }
    {
        self.public.is_stopped()
    }

    /// How the tree has ended, if it has: as the sequential run of its job ends, and what it has written is that run's text.
    pub fn ended(&self) -> Option<RunEnding>
        ensures ended { result ≡ ended (state_of self.now.history) }
        ensures ending { IfSome result (λ e. e ≡ ending_of self.now.history.job self.now.history.budget) }
        ensures text { IfSome result (λ e. (state_of self.now.history).world.written ≡ text_of self.now.history.job self.now.history.budget) }
    {
        promises_are_kept();
        self.public.ended()
    }

    /// The answers and inferences of all to the left of the leftmost entry and on its branch, or of all where none is left.
    pub fn counts(&self) -> (u64, u64)
        ensures counts { result ≡ counts (state_of self.now.history) }
        ensures last { AreFinalCounts self.now.history result }
    {
        promises_are_kept();
        self.public.counts()
    }

    /// Stops the tree, where it has not ended: nothing happens to it from then on.
    pub fn stop(&mut self, worker: u32)
        ensures stops { self.new.history ≡ while_going (Stop worker) self.old.history }
        ensures made { StayMade self.old.nodes.rows self.new.nodes.rows }
    {
        self.public.stop(worker);
    }
}
