//! Regions that workers keep.
ghost use Rattle.std.specs.Prelude.{IfOk, IfSome};
ghost use Rattle.tree_model.specs.EventViews.{place_view};
ghost use Rattle.task_region.specs.KeptRegions.{IsTakenBack};

use au_term::NoMemory;
use region_split::{Alternatives, Region};
use std::marker::Model;
use tree_model::AltRef;

/// A region in which nothing is left but what is bound on the branch of an alternative, and the numbers of the nodes on the way down to
/// that, the outermost first.
#[derive(Drop)]
pub struct KeptRegion {
    pub(crate) region: Region,
    pub(crate) at: AltRef,
    pub(crate) numbers: Vec<u64>,
}

impl Model for KeptRegion {
    ghost use Rattle.std.specs.Coded.{codes};
    ghost use Rattle.au_term.specs.PrefixOrder.{term_code};
    ghost use Rattle.tree_model.specs.EventViews.{place_view};
    ghost use Rattle.task_region.specs.KeptRegions.{KeptView};

    ghost Value = { KeptView };

    ghost coded = { Prim.hlevel (codes, term_code) };

    ghost view = { λ k. record { region = k.region; place = place_view k.at; numbers = k.numbers.items } };
}

impl KeptRegion {
    /// Takes the region of the task of an alternative back to where that began; none where it has fewer choice points than the way down
    /// has nodes, or no end of a query under them.
    pub fn of(region: Region, at: AltRef, numbers: Vec<u64>) -> Result<Option<KeptRegion>, NoMemory>
        ensures { IfOk result (λ kept. IfSome kept (IsTakenBack region (place_view at) numbers.items)) }
    {
        let count = numbers.len();
        if count == 0 || region.height() < count {
            return Ok(None);
        }
        let mut region = region;
        region.cut_to(count);
        region.ends_are_oldest();
        let end = region.take_newest();
        let Alternatives::QueryEnd = end.alternatives else {
            return Ok(None);
        };
        let nothing = region.nothing_left();
        region.push_choice(Alternatives::QueryEnd, nothing)?;
        Ok(Some(KeptRegion {
            region,
            at,
            numbers,
        }))
    }
}
