//! The nodes of the shared tree, in a table by their numbers: what the branches of the search have left to do, who has
//! it, and what has come of it. Contracts speak of the tree for which the table stands, round a place.
//!
//! A node is found by its number at once, and numbers are never used again; of a node that is gone a place of eight bytes
//! is left. Beside its alternatives a node keeps how many of them are open, and how far they have closed from the left,
//! with the sums of what they closed with, and for each alternative how many next to it, without a break, have closed. The
//! nodes keep how many alternatives are ready and how many wait, and the front: the way from the first node down to the
//! leftmost entry, with the sums of what was counted to its left and above.
//! Records are kept in batches that credits share. Batches of about the same size are made one, and a batch between two
//! greater ones is made one with the smaller: so few are left, and each record is copied a few times, however often what
//! it is part of folds.
//!
//! | call | what it costs |
//! | --- | --- |
//! | `state`, `spent`, `parent`, `below`, `body`, `width`, `passed`, `after`, `front`, `live`, `drawn`, the tests | the same always |
//! | `add` | the node's alternatives |
//! | `set`, `take_back` | what they drop |
//! | `close`, where no node folds | what it drops: the same for a node of any width, at any depth |
//! | `close`, where nodes fold | besides their alternatives, and the batches of the records beside each other there |
//! | `skip`, `give_back` | the numbers |
//!
//! Where one that had closed is opened again, what was known of the breaks at its node is forgotten, and a walk goes over
//! what has closed there. Each node comes to the front once, and leaves it when it goes; where what was spent on a node's
//! alternative changes, or what had closed to the left of the front, the front is walked anew from there. Nothing recurses,
//! and each call takes its memory before it changes anything.
#![tactic(auto)]

pub mod body;
mod cells;
mod drops;
pub mod front;
mod gaps;
mod gather;
mod held;
mod merging;
pub mod nodes;
mod numbers;
pub mod records;
mod row;
pub mod siblings;
pub mod state;
mod table;

pub use body::{NodeBody, NodeKind};
pub use front::Front;
pub use nodes::Nodes;
pub use records::Records;
pub use siblings::Passed;
pub use state::{AltState, Credit};
