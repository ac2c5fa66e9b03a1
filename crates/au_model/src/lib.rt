//! What terms, their texts and their unifiers are: the definitions that every contract cites, and the plain types that
//! they share.
#![tactic(auto)]

pub mod build;
pub mod characters;
pub mod copies;
pub mod fault;
pub mod laws;
pub mod lists;
pub mod names;
pub mod types;

pub use fault::{DomainName, EvalName, Fault, LimitName, PermissionName, TypeName};
pub use types::{DoubleQuotes, FaultKind, Style, VarName};
