//! The status with which a goal ends the run (ISO/IEC 13211-1, 8.17.4).
ghost use Rattle.clause_compile.specs.declared.event.Effect.TheVariants.{HaltWith as HaltWithEffect};
ghost use Rattle.effect_gate.specs.Effects.{IsEffectApplied};
ghost use Rattle.effect_gate.specs.Refusals.{IsEffectDone};
ghost use Rattle.effect_gate.specs.declared.world.World.{World as WorldTerms};

use crate::refusal::{Refusal, wrong_type, wrong_value};
use crate::world::Applied;
use au_model::{DomainName, Fault, TypeName};
use au_term::{Cell, FlatTerm};

/// The greatest status that a goal may give. Those above it tell how a run failed.
const MAX_STATUS: i64 = 63;

/// Ends the run with this status.
pub(crate) fn halt_with(status: &FlatTerm) -> Result<Applied, Refusal>
    ensures { (w : WorldTerms) → IsEffectDone (HaltWithEffect status.now) w w result }
{
    match status.top() {
        Cell::Var(_) => Err(Refusal::Fault(Fault::Instantiation)),
        Cell::Int(value) if 0 <= *value && *value <= MAX_STATUS => Ok(Applied::Halt(*value as u8)),
        Cell::Int(_) => Err(wrong_value(DomainName::ExitStatus, status)),
        _ => Err(wrong_type(TypeName::Integer, status)),
    }
}
