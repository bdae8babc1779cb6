/// The version of a history's text, which its first line names.
#[derive(Clone, Copy, Debug, PartialEq, Eq, Drop)]
pub enum Version {
    /// Events only: the queue is empty at first.
    One,
    /// Initial values, and then events.
    Two,
}
