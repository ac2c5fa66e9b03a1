//! Unification of values of the store.
ghost use Rattle.std.specs.Prelude.{◌≤◌, IfOk};
ghost use Rattle.au_term.specs.Term.{var_bound};
ghost use Rattle.cell_store.specs.StoreView.{IsValueIn, meaning};
ghost use Rattle.cell_store.specs.UnificationSteps.{IsUnified, OnlyBinds};

use crate::store::Store;
use crate::unify::unify;
use au_term::NoMemory;
use binding_array::BindingCell;

impl Store {
    /// Makes two values one by further bindings, or answers that none do. Where none do, or out of memory, some bindings may
    /// be left: the store can be taken back to a mark.
    pub fn unify(&mut self, a: BindingCell, b: BindingCell) -> Result<bool, NoMemory>
        requires left { IsValueIn self.old a }
        requires right { IsValueIn self.old b }
        ensures unified { IfOk result (IsUnified a b self.old self.new) }
        ensures kept { OnlyBinds self.old self.new }
    {
        unify(a, b, None, self)
    }

    /// The same, of a goal and the head of a clause whose variables are numbered from `base` on and are in nothing that the
    /// goal stands for: one of them is bound without the search for it in its value, until an older variable is bound to a
    /// compound of the head.
    #[inline]
    pub fn unify_head(
        &mut self,
        goal: BindingCell,
        head: BindingCell,
        base: u32,
    ) -> Result<bool, NoMemory>
        requires goal { IsValueIn self.old goal }
        requires head { IsValueIn self.old head }
        requires older { var_bound (meaning self.old goal) ≤ base }
        ensures unified { IfOk result (IsUnified goal head self.old self.new) }
        ensures kept { OnlyBinds self.old self.new }
    {
        let fresh = self.if_young(base);
        unify(goal, head, fresh, self)
    }
}
