//! What is sent to a target: a connection or a message.
/// What is sent to a target.
#[derive(Clone, Copy, Debug, PartialEq, Eq)]
pub enum Sort {
    /// A connection, by `connect`.
    Connection,
    /// A message that asks for one reply, by `send`.
    Message,
}
