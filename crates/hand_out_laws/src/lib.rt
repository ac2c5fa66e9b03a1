//! Why the one driver of a tree always has something to do: where all that it took out of the tree has come back, nobody has a
//! task, and as long as the tree goes on there is something to take. None of it runs.
#![tactic(auto)]

pub mod laws;
