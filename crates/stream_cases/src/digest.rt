//! A digest of texts: 64 bits of FNV-1a.

/// The digest of what was added, in order.
#[derive(Drop)]
pub struct Digest {
    value: u64,
}

impl Digest {
    /// That of no octet.
    pub fn new() -> Digest {
        Digest {
            value: 0xcbf2_9ce4_8422_2325,
        }
    }

    /// Adds octets.
    pub fn add(&mut self, octets: &[u8]) {
        for octet in octets {
            self.value = (self.value ^ u64::from(*octet)).wrapping_mul(0x0000_0100_0000_01b3);
        }
    }

    /// The digest.
    pub fn value(&self) -> u64 {
        self.value
    }
}
