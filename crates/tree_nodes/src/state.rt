//! How an alternative stands.
use crate::records::Records;
use clause_compile::GateKind;

/// What a closed alternative has left: inferences and answers, which stop at the greatest number, and what was collected
/// for the nearest findall above, in its order.
#[derive(Drop)]
pub struct Credit {
    pub inferences: u64,
    pub answers: u64,
    pub records: Records,
}

/// Who has an alternative, or what has become of it.
#[derive(Drop)]
pub enum AltState {
    Ready,
    /// A worker has it.
    Taken(u32),
    /// A node is below it.
    Inner(u64),
    Waiting(GateKind),
    /// It sleeps while the first alternative of its node is open.
    Dormant,
    Closed(Credit),
}
