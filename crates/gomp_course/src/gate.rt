//! What stands round each call of a member.

/// What is called before and after each call that a member makes of its team, on the member's thread. It
/// may wait for other members there, so that a test can have them meet.
///
/// `member` is the member's number, from 0, and `call` counts its calls, from 1; the count stays at
/// 2^64 - 1. Nothing is promised of a gate by a contract.
pub trait CallGate: Drop {
    /// The member is about to make the call.
    fn before(&self, member: u16, call: u64);

    /// The call was answered.
    fn after(&self, member: u16, call: u64);
}

/// A gate that does nothing.
#[derive(Drop)]
pub struct NoGate;

impl CallGate for NoGate {
    fn before(&self, _member: u16, _call: u64) {}

    fn after(&self, _member: u16, _call: u64) {}
}
