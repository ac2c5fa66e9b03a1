//! Why every legal history of the shared tree shows the sequential run: the machine over a flat list of what is left to
//! do, the laws by which such a list may change, and what every history keeps. None of it runs.
#![tactic(auto)]

pub mod laws;
