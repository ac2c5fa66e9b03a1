//! What a cut or a ball takes from the shared tree, where a ball lands, and which catch a ball meets first.
//!
//! `prune_right` costs the alternatives to the right on the way from the alternative up to the scope, and what stood below
//! them; `cut` adds a node of what the cut leaves before that. `find_landing` costs the nodes on the way up to the scope, what
//! has closed to the left there, and a copy of its records; `land` costs what it drops. `cut` and `land` take their memory
//! before they change anything. `catch_at` walks a list of goals to its first end of a catch.
#![tactic(auto)]

pub mod catches;
pub mod cuts;
pub mod landed;
pub mod landing;
pub mod prune;
mod sum;

pub use catches::catch_at;
pub use cuts::cut;
pub use landed::land;
pub use landing::{Landing, find_landing};
pub use prune::prune_right;
