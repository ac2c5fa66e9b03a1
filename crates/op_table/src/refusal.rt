//! Why a table is not changed.
ghost use Rattle.std.specs.Prelude.{◌≡◌};

use au_model::Fault;
use au_term::NoMemory;
use std::alloc::AllocFailed;

/// Why an operator was not added: the error of `op/3` (ISO/IEC 13211-1, 8.14.3.3), or running out of memory.
#[derive(Drop)]
pub enum OpRefusal {
    Fault(Fault),
    NoMemory,
}

impl From<NoMemory> for OpRefusal {
    ghost use Rattle.op_table.specs.declared.refusal.OpRefusal.TheVariants.{NoMemory as NoMemoryLeft};

    ghost from_gives = { λ _ e. e ≡ NoMemoryLeft };

    fn from(_error: NoMemory) -> OpRefusal {
        OpRefusal::NoMemory
    }
}

impl<T: Drop> From<AllocFailed<T>> for OpRefusal {
    ghost use Rattle.op_table.specs.declared.refusal.OpRefusal.TheVariants.{NoMemory as NoMemoryLeft};

    ghost from_gives = { λ _ e. e ≡ NoMemoryLeft };

    fn from(_error: AllocFailed<T>) -> OpRefusal {
        OpRefusal::NoMemory
    }
}
