//! The laws of tables and header blocks.
ghost use Rattle.std.specs.Prelude.{◌≡◌, ◌≤◌, ◌⊎◌, ℕ, List};
ghost use Rattle.hpack.specs.declared.header.Header.{Header};
ghost use Rattle.hpack.specs.Tables.{Table, fitting, list_size};
ghost use Rattle.hpack.specs.Blocks.{IsBlock, BreaksBlock};
ghost use Rattle.hpack.specs.declared.limits.TheConstants.{MAX_HEADER_LIST_SIZE};
ghost use Rattle.hpack.specs.Encoding.{Writing, IsWriting, AreTexts, new_writing, with_peer_limit, encoded_block, writing_after};
ghost use Rattle.hpack.specs.Rules.{rule_number};
ghost use Rattle.hpack.specs.Laws.{IsLongestFront, IsSmallBlock, HasReading, IsRefusal};

use crate::stop::BlockRule;

/// What a table keeps of its entries, the newest first, is the longest prefix that fits.
#[tactic(auto, using(crate::proofs::LawProofs::fitting_longest))]
pub fn eviction_law()
    ensures { (room : ℕ) (entries : List Header) → IsLongestFront room entries (fitting room entries) }
{}

/// Octets are a header block in one way at most, or they break one rule first, and never both; one of
/// the two is so, and the rules are six, each with a number of its own.
pub fn one_answer_law()
    ensures one_reading { (before : Table) (octets : List ℕ) (headers others : List Header) (after other : Table)
        → IsSmallBlock before octets headers after → IsSmallBlock before octets others other
        → (headers ≡ others) × (after ≡ other) }
    ensures one_refusal { (before : Table) (octets : List ℕ) (rule other : BlockRule)
        → BreaksBlock rule before octets → BreaksBlock other before octets → rule ≡ other }
    ensures never_both { (before : Table) (octets : List ℕ) (rule : BlockRule)
        → HasReading before octets → BreaksBlock rule before octets → ⊥ }
    ensures one_of_both { (before : Table) (octets : List ℕ)
        → HasReading before octets ⊎ IsRefusal before octets }
    ensures six_rules { (rule : BlockRule) → (711 ≤ rule_number rule) × (rule_number rule ≤ 716) }
    ensures own_number { (rule other : BlockRule) → rule_number rule ≡ rule_number other → rule ≡ other }
{}

/// The encoder's block is read back as the same headers, and leaves the peer's table as the encoder's,
/// whatever maximum sizes the peer has allowed.
#[tactic(auto, using(crate::proofs::BlockBack::block_back, crate::proofs::BlockBack::new_kept, crate::proofs::BlockBack::allowed_kept))]
pub fn encoded_block_law()
    ensures read_back { (old : Writing) (headers : List Header) → IsWriting old → AreTexts headers
        → list_size headers ≤ MAX_HEADER_LIST_SIZE
        → IsBlock old.table (encoded_block old headers) headers (writing_after old headers).table }
    ensures begins { IsWriting new_writing }
    ensures allowed { (peer : ℕ) (old : Writing) → IsWriting old → IsWriting (with_peer_limit peer old) }
    ensures goes_on { (old : Writing) (headers : List Header) → IsWriting old
        → IsWriting (writing_after old headers) }
{}
