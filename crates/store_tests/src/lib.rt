//! Tests of the store of cells: arrays, cells, values, and the index of clauses: what no clause says, outside examples, and each call that allocates once,
//! with ample memory. They are in a crate of their own because a crate with tests is proved twice.
#![tactic(auto)]

#[cfg(test)]
mod binding_cells;
#[cfg(test)]
mod cells;
#[cfg(test)]
mod clause_indexes;
#[cfg(test)]
mod common;
#[cfg(test)]
mod values;
#[cfg(test)]
mod written;
