//! What is taken off a region.
use crate::items::CapturedItems;
use au_term::{Bindings, FlatTerm, Shared, VarNo};

/// What an alternative has left: the number of its items, the bindings that were made since its choice point came, and the next
/// variable number.
#[derive(Drop)]
pub struct CapturedAlternative {
    pub first: u32,
    pub bindings: Bindings,
    pub next: VarNo,
}

/// What a choice point is for. A catch and a findall have one alternative, which is what follows them.
#[derive(Drop)]
pub enum CapturedKind {
    Choice,
    /// What is caught, and the recovery.
    Catch {
        catcher: Shared,
        recovery: Shared,
    },
    /// What the list of results is unified with, and the results so far.
    Findall {
        list: Shared,
        results: Vec<FlatTerm>,
    },
}

/// A choice point: its alternatives, the bindings that were made between the one under it and it, and the next variable number
/// when it came.
#[derive(Drop)]
pub struct CapturedChoice {
    pub kind: CapturedKind,
    pub alternatives: Vec<CapturedAlternative>,
    pub below: Bindings,
    pub next: VarNo,
}

/// What is left to do at a position, with those bindings since the newest choice point came that it or a variable of that time can
/// reach, and the choice points, the newest first.
#[derive(Drop)]
pub struct Captured {
    pub items: CapturedItems,
    pub current: CapturedAlternative,
    pub choices: Vec<CapturedChoice>,
}
