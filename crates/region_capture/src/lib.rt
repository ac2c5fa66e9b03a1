//! What a region has left, taken off it as written terms: what is left to do at a position, and choice point by choice point
//! the alternatives that are left, each with the bindings that were made since its choice point came. No binding is followed,
//! so what is bound is written down once, where it was bound. Of what was bound between two choice points, and since the newest, those
//! bindings are left out that nothing can reach: of the variables that came between the two those alone are written that are in what
//! is left over them, or in a value that is written; of the older ones all that were bound between them. As yet each alternative has
//! all that follows it by itself, though items are kept so that what follows can be shared.
//!
//! Each alternative is tried over a choice point of its own, written down and undone. So a region takes the time to try what is
//! left once, and to write down what follows each alternative.
#![tactic(auto)]

mod alternatives;
mod captured;
mod clauses;
mod items;
mod levels;
mod needed;
mod positions;
mod regions;
mod seen;
mod solutions;
mod writing;

pub use captured::{Captured, CapturedAlternative, CapturedChoice, CapturedKind};
pub use items::{CapturedItem, CapturedItems};
pub use regions::capture;
pub use writing::bindings_since_floor;
