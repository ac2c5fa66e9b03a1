//! What is bound on a branch of the shared tree, as laws. There a bound variable and what it is bound to are an equation, and
//! the unifier of a branch's equations is what its goals are resolved by. An array of cells that has exactly these bindings
//! represents that unifier. Bindings that are made further, as a store makes them since a mark, extend it.
#![tactic(auto)]

pub mod laws;
