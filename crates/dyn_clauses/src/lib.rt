//! The dynamic procedures: clauses that are added and removed while a program runs (ISO/IEC 13211-1, 7.5 and 8.9).
//!
//! A database knows which procedures are static, and the clauses of the dynamic ones in their order. Each clause has a
//! number, and no number is given twice. What a call sees are the clauses of that moment (7.5.4): a snapshot is a list
//! that no later change touches. Adding and removing a clause take logarithmic time, whatever the length of its
//! procedure; the clauses that a key allows are found in the time of listing them.
#![tactic(auto)]

mod database;
mod indicator;
mod keys;
mod place;
mod procedure;

pub use database::{DataRefusal, Database, Gone, Snapshot, Static};
pub use indicator::Indicator;
