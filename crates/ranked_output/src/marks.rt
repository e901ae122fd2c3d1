/// How a line of a ranking stands to the line above it.
#[derive(Clone, Copy, Debug, PartialEq, Eq)]
pub enum Mark {
    /// There is no line above.
    First,
    /// The key is greater by more than twice the scale, so the belief is truly smaller.
    Below,
    /// All leaves have the same beliefs.
    Same,
    /// The keys are too near for an order.
    Near,
}
