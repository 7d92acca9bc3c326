//! What breaks a rule.

/// What breaks a rule first.
#[derive(Clone, Copy, Debug, PartialEq, Eq)]
pub(crate) enum Breaker {
    /// The object at this place in file order.
    Object(usize),
    /// The message itself.
    Message,
}
