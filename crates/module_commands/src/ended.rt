//! How a command ends.

/// How a play ends, or a command on a text.
#[derive(Clone, Copy)]
pub enum Ended {
    /// Each line of the script was answered; or a module, a certificate or `accepted` was written.
    Done,
    /// A text or a line of the script was none, or a module is refused, and the last line that was written tells it.
    Refused,
}
