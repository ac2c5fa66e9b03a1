//! Who waits for something to do.

/// Whether other workers wait for something to do, so that a task should give them what it has left.
pub trait Demand {
    /// Whether somebody waits now.
    fn somebody_waits(&mut self) -> bool;
}

/// Nobody waits.
#[derive(Clone, Copy, Debug)]
pub struct NoDemand;

impl Demand for NoDemand {
    fn somebody_waits(&mut self) -> bool {
        false
    }
}
