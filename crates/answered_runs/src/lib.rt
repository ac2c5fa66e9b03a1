//! Why a private run that ends in an answer, and leaves nothing else to try, needs no nodes: the alternative closes as if it had
//! had them. None of it runs.
#![tactic(auto)]

pub mod laws;
