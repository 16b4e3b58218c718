//! An answer that may still be to come.

/// What a call that waits for octets answers.
#[derive(Debug, Drop)]
pub enum Poll<T> {
    /// The answer is here.
    Ready(T),
    /// What has arrived so far holds no whole answer.
    Pending,
}
