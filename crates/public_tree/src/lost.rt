//! Tasks that are out and have been pruned.
ghost use Rattle.std.specs.Prelude.{◌≡◌, ◌<◌, map, length, IfSome};
ghost use Rattle.tree_model.specs.EventViews.{place_view};
ghost use Rattle.tree_model.specs.Legality.{is_task};
ghost use Rattle.tree_model.specs.Effects.{without_task};
ghost use Rattle.public_tree.specs.LostTasks.{task_view, lost_index};

use tree_model::AltRef;

/// A task that is out and has been pruned.
#[derive(Clone, Copy)]
pub(crate) struct LostTask {
    pub(crate) worker: u32,
    pub(crate) at: AltRef,
}

impl LostTask {
    fn is_of(&self, worker: u32, at: AltRef) -> bool
        ensures { result ≡ is_task worker (place_view at) (task_view self.now) }
    {
        self.worker == worker && (self.at.node == at.node && self.at.alternative == at.alternative)
    }
}

/// Where the task of a worker at an alternative is, if it is there.
pub(crate) fn index_of(lost: &[LostTask], worker: u32, at: AltRef) -> Option<usize>
    ensures index { result ≡ lost_index 0 worker (place_view at) (map task_view lost.now) }
    ensures within { IfSome result (λ i. i < length lost.now) }
{
    for i in 0..lost.len() {
        if lost[i].is_of(worker, at) {
            return Some(i);
        }
    }
    None
}

/// Takes it out.
pub(crate) fn take_out(lost: &mut Vec<LostTask>, worker: u32, at: AltRef)
    ensures { map task_view lost.new.items ≡ without_task worker (place_view at) (map task_view lost.old.items) }
{
    if let Some(index) = index_of(lost, worker, at) {
        let _gone = lost.remove(index);
    }
}
