//! The bindings that were made since a mark.
ghost use Rattle.std.specs.Prelude.{◌≡◌, ◌<◌, ◌≤◌, ◌^◌, ℕ, IfOk, length};
ghost use Rattle.au_model.specs.Terms.Each.{Each};
ghost use Rattle.std.specs.List.{Contains};
ghost use Rattle.std.specs.List.Sorted.{IsStrictlyIncreasing};
ghost use Rattle.cell_store.specs.MadeBindings.{AreOlderOf, AreSinceMark, IsSince, bindings_of};

use crate::mark::Mark;
use au_term::NoMemory;
use binding_array::{BindingArray, BindingCell};
use std::alloc::Global;

/// The bindings of the variables that came on the trail after a mark was made, and of the new ones, each once, in the order of
/// their numbers.
pub(crate) fn bindings_after(
    alloc: Global,
    mark: Mark,
    trail: &[u32],
    cells: &BindingArray,
) -> Result<Vec<(u32, BindingCell)>, NoMemory>
    requires trail { mark.trail ≤ length trail.now }
    requires variables { mark.variables ≤ length cells.now }
    requires there { Each (λ v. v < length cells.now) trail.now }
    requires small { length cells.now < 2 ^ 32 }
    ensures { IfOk result (λ bs. AreSinceMark mark trail.now cells.now bs.items) }
{
    let variables = variables_since(alloc, &trail[mark.trail..], mark.variables, cells.len())?;
    bindings_of(alloc, &variables, cells)
}

/// The variables of a trail and the new ones, each once, in the order of their numbers.
fn variables_since(
    alloc: Global,
    trail: &[u32],
    below: usize,
    count: usize,
) -> Result<Vec<u32>, NoMemory>
    requires order { below ≤ count }
    requires small { count < 2 ^ 32 }
    ensures rising { IfOk result (λ vs. IsStrictlyIncreasing vs.items) }
    ensures all { IfOk result (λ vs. (v : ℕ) → IsSince trail.now below count v → Contains vs.items v) }
    ensures others { IfOk result (λ vs. (v : ℕ) → Contains vs.items v → IsSince trail.now below count v) }
{
    let mut variables = Vec::from_slice(alloc, trail)?;
    for variable in below..count {
        variables.push(variable as u32)?;
    }
    variables.sort_unstable();
    variables.dedup();
    Ok(variables)
}

/// The bindings of variables, where they are bound.
fn bindings_of(
    alloc: Global,
    variables: &[u32],
    cells: &BindingArray,
) -> Result<Vec<(u32, BindingCell)>, NoMemory>
    requires { (v : ℕ) → Contains variables.now v → v < length cells.now }
    ensures { IfOk result (λ bs. bs.items ≡ bindings_of cells.now variables.now) }
{
    let mut bindings = Vec::new(alloc);
    for variable in variables {
        if let Some(value) = cells.get(*variable) {
            bindings.push((*variable, value))?;
        }
    }
    Ok(bindings)
}

/// Those variables of a trail that are below a number.
pub(crate) fn older_variables(
    alloc: Global,
    trail: &[u32],
    below: usize,
) -> Result<Vec<u32>, NoMemory>
    ensures { IfOk result (λ vs. AreOlderOf trail.now below vs.items) }
{
    let mut older = Vec::new(alloc);
    for variable in trail {
        if (*variable as usize) < below {
            older.push(*variable)?;
        }
    }
    Ok(older)
}
