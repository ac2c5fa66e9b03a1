//! The nodes to which cuts are, by how many choice points they keep.
ghost use Rattle.std.specs.Prelude.{◌≡◌, IfOk};
ghost use Rattle.task_publishing.specs.KeptScopes.{AreScopesOf, all_scopes, last_of, scope_at};

use au_term::NoMemory;
use region_capture::CapturedChoice;
use std::alloc::Global;

/// The scopes of the numbers of choice points above those of the branch, whose nodes have these numbers, the outermost first: of those that
/// become nodes, the oldest first, from a number on. A choice point with no alternative becomes none.
pub(crate) fn scopes_kept(
    alloc: Global,
    branch: &[u64],
    choices: &[CapturedChoice],
    next: u64,
) -> Result<Vec<u64>, NoMemory>
    ensures { IfOk result (λ own. AreScopesOf branch.now choices.now next (all_scopes branch.now own.items)) }
{
    let mut own = Vec::new(alloc);
    let mut newest = last_scope(branch, &own);
    let mut number = next;
    for choice in choices {
        if !choice.alternatives.is_empty() {
            newest = number;
            let Some(following) = number.checked_add(1) else {
                return Err(NoMemory);
            };
            number = following;
        }
        own.push(newest)?;
    }
    Ok(own)
}

/// The scope of a number of choice points, of a branch and own ones: past the last one it is the same. No choice point is in the scope of
/// the root.
pub(crate) fn scope_of(branch: &[u64], own: &[u64], kept: usize) -> u64
    ensures { result ≡ scope_at (all_scopes branch.now own.now) kept }
{
    if kept == 0 {
        return 0;
    }
    let place = kept - 1;
    if place < branch.len() {
        return branch[place];
    }
    let over = place - branch.len();
    if over < own.len() {
        own[over]
    } else {
        last_scope(branch, own)
    }
}

/// The last one.
fn last_scope(branch: &[u64], own: &[u64]) -> u64
    ensures { result ≡ last_of (all_scopes branch.now own.now) }
{
    match own.last() {
        Some(scope) => *scope,
        None => match branch.last() {
            Some(scope) => *scope,
            None => 0,
        },
    }
}
