//! The choice points that become nodes: those that have alternatives left.
ghost use Rattle.std.specs.Prelude.{◌≡◌, ◌++◌, IfOk};
ghost use Rattle.task_publishing.specs.LiveChoices.{AreLive, AddsLiveChoice};

use au_term::{Binding, Bindings, NoMemory, VarNo};
use region_capture::{CapturedAlternative, CapturedChoice, CapturedKind};
use std::alloc::Global;

/// Bindings, and the next variable number before them.
#[derive(Drop)]
pub(crate) struct Lead {
    pub(crate) base: VarNo,
    pub(crate) bindings: Bindings,
}

/// A choice point with alternatives, the bindings that lead to it from the one under it that has any, and the next variable number
/// when it came.
#[derive(Drop)]
pub(crate) struct LiveChoice {
    pub(crate) kind: CapturedKind,
    pub(crate) lead: Lead,
    pub(crate) next: VarNo,
    pub(crate) alternatives: Vec<CapturedAlternative>,
}

/// The choice points with alternatives, the oldest first, and the bindings since the newest of them.
#[derive(Drop)]
pub(crate) struct LiveChoices {
    pub(crate) choices: Vec<LiveChoice>,
    pub(crate) since: Lead,
}

/// Those of choice points, the oldest first, from a next variable number on.
pub(crate) fn live_choices(
    alloc: Global,
    choices: Vec<CapturedChoice>,
    base: VarNo,
) -> Result<LiveChoices, NoMemory>
    ensures { IfOk result (AreLive base choices.items) }
{
    let mut live = LiveChoices {
        choices: Vec::new(alloc),
        since: Lead {
            base,
            bindings: Bindings::new(alloc),
        },
    };
    for choice in choices {
        live = with_choice(alloc, live, choice)?;
    }
    Ok(live)
}

// The next one, which may have no alternative.
fn with_choice(
    alloc: Global,
    before: LiveChoices,
    choice: CapturedChoice,
) -> Result<LiveChoices, NoMemory>
    ensures { IfOk result (AddsLiveChoice before choice) }
{
    let LiveChoices { choices, since } = before;
    let CapturedChoice {
        kind,
        alternatives,
        below,
        next,
    } = choice;
    let Lead { base, bindings } = since;
    let lead = Lead {
        base,
        bindings: joined(bindings, below)?,
    };
    if alternatives.is_empty() {
        return Ok(LiveChoices {
            choices,
            since: lead,
        });
    }
    let mut choices = choices;
    choices.push(LiveChoice {
        kind,
        lead,
        next,
        alternatives,
    })?;
    Ok(LiveChoices {
        choices,
        since: Lead {
            base: next,
            bindings: Bindings::new(alloc),
        },
    })
}

/// Bindings after others.
pub(crate) fn joined(before: Bindings, further: Bindings) -> Result<Bindings, NoMemory>
    ensures { IfOk result (λ all. all ≡ before ++ further) }
{
    if before.as_slice().is_empty() {
        return Ok(further);
    }
    let mut all = before;
    for binding in further.as_slice() {
        all.push(Binding {
            var: binding.var,
            value: binding.value.share()?,
        })?;
    }
    Ok(all)
}
