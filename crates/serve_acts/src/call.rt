//! Calls of `SendToServer`.

use esi_base::Word;

/// A completed call of `SendToServer` that asks for a value to be put on a channel. It waits until its
/// value is taken.
#[derive(Clone, Copy, Debug)]
pub struct Call {
    /// The number of the to-server channel.
    pub channel: u32,
    /// The connection on which it came.
    pub conn: u32,
    /// Its stream on the connection.
    pub stream: u32,
    /// How many octets of DATA it took of the windows, which are given back when it is answered.
    pub flow: u32,
    /// The value's bits.
    pub word: Word,
}
