//! Why an effect is refused.
ghost use Rattle.std.specs.Prelude.{◌≡◌, Some};
ghost use Rattle.au_model.specs.Terms.ErrorTerms.{domain_error, type_error};
ghost use Rattle.au_model.specs.Terms.Faults.{domain_word, type_word};
ghost use Rattle.effect_gate.specs.Refusals.{IsErrorRefusal};

use au_model::{DomainName, Fault, TypeName};
use au_term::{FlatTerm, NoMemory};
use std::alloc::AllocFailed;

/// The error that a goal raises, or running out of memory.
#[derive(Drop)]
pub(crate) enum Refusal {
    Fault(Fault),
    NoMemory,
}

impl From<NoMemory> for Refusal {
    ghost use Rattle.effect_gate.specs.declared.refusal.Refusal.TheVariants.{NoMemory as NoMemoryLeft};

    ghost from_gives = { λ _ e. e ≡ NoMemoryLeft };

    fn from(_error: NoMemory) -> Refusal {
        Refusal::NoMemory
    }
}

impl<T: Drop> From<AllocFailed<T>> for Refusal {
    ghost use Rattle.effect_gate.specs.declared.refusal.Refusal.TheVariants.{NoMemory as NoMemoryLeft};

    ghost from_gives = { λ _ e. e ≡ NoMemoryLeft };

    fn from(_error: AllocFailed<T>) -> Refusal {
        Refusal::NoMemory
    }
}

/// The error of a term that is of another type.
pub(crate) fn wrong_type(name: TypeName, culprit: &FlatTerm) -> Refusal
    ensures { IsErrorRefusal (Some (type_error (type_word name) culprit.now)) result }
{
    match culprit.copy() {
        Ok(culprit) => Refusal::Fault(Fault::WrongType(name, culprit)),
        Err(NoMemory) => Refusal::NoMemory,
    }
}

/// The error of a term that is not among those of its type that may stand here.
pub(crate) fn wrong_value(name: DomainName, culprit: &FlatTerm) -> Refusal
    ensures { IsErrorRefusal (Some (domain_error (domain_word name) culprit.now)) result }
{
    match culprit.copy() {
        Ok(culprit) => Refusal::Fault(Fault::Domain(name, culprit)),
        Err(NoMemory) => Refusal::NoMemory,
    }
}
