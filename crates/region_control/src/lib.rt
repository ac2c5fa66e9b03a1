//! Goals and control constructs in a region: a term's goals are put before what follows at a position, and a construct opens
//! the choice points and frames that the definition's entries come from. Terms stay where they are: no goal is copied.
//!
//! Goals are put in as many steps as the conjunctions have goals. A ball goes by what is left to do up to the catch that takes
//! it, and takes off the choice points above. The rest takes constant time.
#![tactic(auto)]

mod ahead;
mod balls;
mod control;
mod forms;
mod goals;
mod replies;
pub mod sides;

pub use ahead::{Ahead, CompoundAhead, compound_ahead, look_ahead};
pub use balls::throw;
pub use control::{GoalPlace, call, catch, cut, disjunction, findall, if_then, not, once};
pub use forms::{GoalForm, argument, compound_form, form_of};
pub use goals::{Goals, push_goals};
pub use replies::{AfterGoal, raise, raise_fault};
