//! The gate that workers pass.
use std::sync::Wait;

/// Where a worker is as it passes the gate.
#[derive(Clone, Copy, Debug, PartialEq, Eq)]
pub enum Moment {
    Claimed,
    Private,
    Published,
    Suspended,
    Resumed,
    Pruned,
    Answered,
    Idle,
}

/// What workers pass at each moment of their work. It answers nothing and promises nothing, and
/// may wait.
pub trait Gate: Sync {
    fn at<R: Wait>(&self, rt: &R, worker: u32, moment: Moment);
}

/// A gate that lets everyone pass at once.
#[derive(Clone, Copy, Debug)]
pub struct NoGate;

impl Gate for NoGate {
    fn at<R: Wait>(&self, _rt: &R, _worker: u32, _moment: Moment) {}
}
