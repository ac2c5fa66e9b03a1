//! What becomes of an alternative of the shared tree where the run of its task stops before an inference that the worker can't take
//! by itself.
//!
//! - At a gate it is given back to wait there, or its cut is taken.
//! - At its end nothing is left, or only a result for a findall above. It closes, and what wakes by that goes on in a node of its own:
//!   a findall whose goal side has closed goes on with the list of its results (ISO/IEC 13211-1, 8.10.1), and the end of a query as it
//!   was. `woken_body` costs the results and the records; what follows the findall is shared.
//! - At a ball it falls to where the ball lands, or is given back to wait for that. The ball goes up from catch to catch whose goals
//!   the alternative is still in, to the first that takes a copy of it, whose recovery goes on in a node of its own; where none does,
//!   the query ends with it (ISO/IEC 13211-1, 7.8.9 and 7.8.10). `land_ball` costs the nodes on the branch, and for each catch that is
//!   asked the bindings on the way to it.
#![tactic(auto)]

mod catches;
mod closing;
pub mod closing_laws;
mod cuts;
pub mod end_laws;
pub mod fall_laws;
mod falling;
mod front;
pub mod gate_laws;
mod gather;
mod landed;
mod landing;
pub mod landing_laws;
mod recovery;
mod suspending;
mod taking;
mod waiting;
mod woken;

pub use closing::{close_task, collect_task};
pub use cuts::cut_task;
pub use falling::fall_task;
pub use landing::{BallLanding, land_ball};
pub use suspending::suspend_task;
pub use waiting::wait_to_fall;
pub use woken::woken_body;
