//! What a vote decides.

/// What the buffers made so far decide.
#[derive(Clone, Copy, PartialEq, Eq)]
pub enum Vote {
    /// The attempt of this number is accepted.
    Kept { attempt: u32 },
    /// One more attempt is needed.
    More,
    /// No two attempts agree.
    Split,
}
