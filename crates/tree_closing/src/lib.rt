//! How an alternative of the shared tree closes: nodes fold into the alternatives above them, a recovery that sleeps beside
//! what has closed goes, and what follows a findall or ends a query wakes below a new node (ISO/IEC 13211-1, 7.8.9 and
//! 8.10.1; Lusk and others 1990). Contracts speak of each tree for which the nodes stand.
//!
//! `find_rest` looks where a closing comes to rest, and changes nothing; it costs what the folding costs. `settle` and `wake`
//! then change the nodes, and cost what they drop. `settle` takes no memory.
#![tactic(auto)]

mod change;
mod sleeping;
mod way_up;

pub use change::{body_of_one, settle, wake};
pub use way_up::{Beside, Closing, find_rest};
