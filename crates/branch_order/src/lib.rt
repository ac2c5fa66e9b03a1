//! Left and right in the shared tree: which of two alternatives is further left, what is open to the left of one, the clock
//! of a branch, the leftmost entry, and the leftmost that a worker can take.
//!
//! `leftmost` costs the same however deep the entry is, and so do the clock of the leftmost entry and the test that it is
//! cleared: they are read off the front that the nodes keep. Of another alternative `first_open`, `cleared`, `clock` and
//! `counts` cost the nodes on the way up, to the scope, the front's last node or the top. `before` walks from two
//! alternatives up until they meet. `leftmost_ready` and `leftmost_cleared` answer none at once where nothing is ready, or
//! nothing waits, which the nodes count. Else they walk from the front to the right up to what they find, over the entries
//! that are with workers, wait or sleep, and the nodes above them; what has closed beside an alternative is passed at once.
//! The second asks besides for each entry that waits whether it is cleared. None takes memory.
#![tactic(auto)]

pub mod clocks;
pub mod left;
pub mod order;
pub mod sides;
pub mod sought;

pub use clocks::{clock, counts, counts_of};
pub use left::{cleared, first_open};
pub use order::leftmost;
pub use sides::before;
pub use sought::{leftmost_cleared, leftmost_ready};
