//! A region: what one worker runs on its own, as frames and choice points over a store of cells (D. H. D. Warren, "An
//! abstract Prolog instruction set", 1983, and "The SRI model for or-parallel execution of Prolog", 1987). A frame is a body
//! of the text under way, or one item that was made while it ran, and goes on in an older frame, so no list of goals is made;
//! a choice point keeps the frames that were there, and a younger frame that nothing goes on in is written over.
//!
//! A goal's clauses are found by its name, its number of arguments and the key of its first one. A choice point over clauses
//! knows the next one and what the index has left after it: it stands for one entry of the sequential machine for each of these
//! whose head unifies. It is changed where it stands, and is gone before the last clause is tried; where one clause alone may
//! match, none is made. So a call takes time for the clauses that are tried, however many there are.
//!
//! Each operation takes constant time, but for undoing, which takes as many steps as variables were bound that are older than
//! the choice point, and for dropping choice points, which takes as many as are dropped.
#![tactic(auto)]

mod backtrack;
mod call;
mod candidates;
mod choice;
mod frame;
mod goals;
pub mod keys;
mod region;
mod results;
mod solution;
mod solve;
mod text;

pub use choice::{Alternatives, ChoicePoint, Resumed, Trial};
pub use frame::{CompoundFirst, Frame, FrameBody, FrameItem, Left, Position};
pub use region::Region;
pub use results::Results;
pub use solution::{Equation, EquationSide, Solution, Solutions};
pub use text::{BodyItem, InnerConstant, KeyedArgument, PlacedClause, Text};
