//! The world and the front of the shared tree: what a task that stops before its first inference tells of its alternative, the removal of
//! a clause or an answer; and that taken in the world, with the event by which the tree notes it or how the alternative closes.
//!
//! What is out to a worker is a task, which is loaded into a region of its own, or the end of a query. At an end that stands at the
//! front the line that ends the query is written in the world, and the job's next query is opened below the end of the one before it;
//! or the alternative closes, where no query is left.
#![tactic(auto)]

mod answer;
mod ending;
mod front;
mod goals;
pub mod laws;
mod left;
mod out_tasks;
mod removal;
mod step;
pub mod task_laws;

pub use answer::{take_answer, write_answer};
pub use ending::end_query;
pub use front::{close, go_on, why_barred};
pub use goals::query_goals;
pub use left::body_behind;
pub use out_tasks::{OutTask, take_up};
pub use removal::take_removal;
pub use step::FrontStep;
