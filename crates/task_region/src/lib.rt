//! The region of a task: what a worker was handed, run by itself over a bare floor. Under its own choice points stands the
//! end of a query for each node of its branch, and one item stands for what its alternative had left to do, which is loaded
//! goal by goal where it comes next.
//!
//! To load a branch is to make the region in which a worker runs an alternative of the shared tree: what is bound on the branch is
//! bound there, and what the alternative has left to do is deferred, with heights over the branch in place of the numbers of nodes.
//! `load_task` costs the nodes on the branch, the bindings and terms since its query, and for each item the logarithm of the number
//! of nodes; where a kept region goes down, only the nodes and bindings below that are counted.
#![tactic(auto)]

mod ahead;
mod bindings;
pub mod branch_laws;
mod catches;
mod cuts;
mod deferred;
mod floor;
mod heights;
mod items;
mod kept;
pub mod laws;
mod load;
mod loading;
mod parts;
mod places;
mod results;
mod rounds;
mod running;
mod start;
mod task;

pub use deferred::DeferredItem;
pub use kept::KeptRegion;
pub use load::{LoadedTask, bound_region, load_task};
pub use loading::{AfterDeferred, take_deferred};
pub use places::places_up;
pub use running::{TaskRan, TaskStop};
pub use task::TaskRegion;
