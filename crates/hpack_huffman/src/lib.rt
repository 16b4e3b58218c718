//! The Huffman code of header strings, both ways (RFC 7541, section 5.2 and Appendix B).
#![tactic(auto)]

mod decoding;
mod encoding;
mod laws;
mod steps;
mod stop;
mod words;

pub use decoding::huff_decode;
pub use encoding::{huff_encode, huff_len};
pub use laws::{code_is_read_again_law, one_code_law, one_text_law};
pub use stop::{HuffStop, HuffmanRule};
