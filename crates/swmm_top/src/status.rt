// How a command ended.

/// How a command ended: the work was done, the input was refused and the report says why, or the words were no
/// command.
#[derive(Clone, Copy, Debug, PartialEq, Eq)]
pub enum Status {
    Done,
    Refused,
    Usage,
}
