//! Tests of order, arithmetic, the built-ins and what goals are: what no clause says, outside examples, and each call that allocates once,
//! with ample memory. They are in a crate of their own because a crate with tests is proved twice.
#![tactic(auto)]

#[cfg(test)]
mod builtin_goals;
#[cfg(test)]
mod common;
#[cfg(test)]
mod evaluated;
#[cfg(test)]
mod kinds;
#[cfg(test)]
mod ordered;
