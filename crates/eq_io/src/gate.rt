//! The gate that workers pass.

/// A worker passes the gate between drawing a ticket and working on it. It has no meaning: it lets a test see two
/// workers at once.
pub trait Gate {
    fn pass(&self, ticket: u64);
}

/// A gate that lets everybody through.
#[derive(Clone, Copy)]
pub struct NoGate;

impl Gate for NoGate {
    fn pass(&self, _ticket: u64) {}
}
