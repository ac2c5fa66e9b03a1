//! The floor of a region.
ghost use Rattle.std.specs.Prelude.{◌≤◌, OnOk, List, length};
ghost use Rattle.au_model.specs.Terms.Each.{Each};
ghost use Rattle.au_model.specs.Terms.Named.{NamedTerm};
ghost use Rattle.region_split.specs.QueryEnds.{IsEnd};
ghost use Rattle.task_region.specs.BareRegions.{IsOverFloor, LaysFloor};

use au_term::NoMemory;
use region_split::{Alternatives, Region};

/// Puts the ends of a bare floor, so many, into a region that has no choice points but some of these ends, and raises its floor to where it
/// stands.
pub(crate) fn lay_floor(region: &mut Region, count: u32) -> Result<(), NoMemory>
    requires ends { Each (λ c. IsEnd c.alternatives) region.old.choices }
    requires few { length region.old.choices ≤ count }
    ensures lays { OnOk result (LaysFloor region.old region.new count) }
    ensures over { OnOk result ((named : List NamedTerm) → IsOverFloor count named region.new) }
{
    region.raise_floor()?;
    region.ends_are_oldest();
    while region.height() < count as usize {
        let nothing = region.nothing_left();
        region.push_choice(Alternatives::QueryEnd, nothing)?;
    }
    // The proof reads off how many entries all choice points stand for.
    let _scope = region.scope()?;
    Ok(())
}
