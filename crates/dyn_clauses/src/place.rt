//! Where clauses are.

use crate::indicator::Indicator;
use std::alloc::AllocError;
use std::collections::BTreeMap;

/// The procedure of a clause, and its position there.
#[derive(Drop)]
pub(crate) struct Place {
    pub(crate) procedure: Indicator,
    pub(crate) position: u64,
}

/// Clauses by their numbers.
pub(crate) type Places = BTreeMap<u64, Place>;

impl Clone for Place {
    ghost use Rattle.std.specs.Prelude.{◌≡◌};

    ghost is_clone = { λ x y. y ≡ x };

    fn clone(&self) -> Result<Place, AllocError> {
        Ok(Place {
            procedure: self.procedure.clone()?,
            position: self.position,
        })
    }
}
