//! Why a region over a bare floor runs as the private run of its branch. A region knows neither what waits on its branch
//! nor the entries that stand for the nodes above it: under its own entries stands an end for each of them, and one item
//! stands for what waits.
#![tactic(auto)]

pub mod laws;
