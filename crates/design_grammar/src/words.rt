//! The keywords and the operators.
ghost use Rattle.std.specs.Prelude.{◌≡◌, map};
ghost use Rattle.design_grammar.specs.Keywords as tables;
ghost use Rattle.design_grammar.specs.Kinds as spec;

use crate::kind::{Kind, is_same};

/// The keywords, and behind them the operators of expressions, each with its kind.
const KEYWORDS: [(&[u8], Kind); 46] = [
    (b"esi", Kind::Esi),
    (b"pipe", Kind::Pipe),
    (b"stages", Kind::Stages),
    (b"bundle", Kind::Bundle),
    (b"service", Kind::Service),
    (b"module", Kind::Module),
    (b"top", Kind::Top),
    (b"to_hw", Kind::ToHw),
    (b"from_hw", Kind::FromHw),
    (b"port", Kind::Port),
    (b"in", Kind::In),
    (b"out", Kind::Out),
    (b"request", Kind::Request),
    (b"as", Kind::As),
    (b"implement", Kind::Implement),
    (b"inst", Kind::Inst),
    (b"chan", Kind::Chan),
    (b"drive", Kind::Drive),
    (b"stage", Kind::Stage),
    (b"buffer", Kind::Buffer),
    (b"fifo", Kind::Fifo),
    (b"map", Kind::Map),
    (b"scan", Kind::Scan),
    (b"fork", Kind::Fork),
    (b"join", Kind::Join),
    (b"as_fifo", Kind::AsFifo),
    (b"as_vr", Kind::AsVr),
    (b"void", Kind::Void),
    (b"struct", Kind::Struct),
    (b"array", Kind::Array),
    (b"union", Kind::Union),
    (b"lit", Kind::Lit),
    (b"make", Kind::Make),
    (b"cast", Kind::Cast),
    (b"zext", Kind::Zext),
    (b"slice", Kind::Slice),
    (b"not", Kind::Not),
    (b"and", Kind::And),
    (b"or", Kind::Or),
    (b"xor", Kind::Xor),
    (b"add", Kind::Add),
    (b"sub", Kind::Sub),
    (b"eq", Kind::Eq),
    (b"lt", Kind::Lt),
    (b"cat", Kind::Cat),
    (b"mux", Kind::Mux),
];

/// The kind of a word by a table; a word that is not in it is a name.
fn kind_in(mut table: &[(&[u8], Kind)], word: &[u8]) -> Kind
    ensures { result ≡ tables.kind_of_word (map (λ k. (k.0.now, k.1)) table.entry.now) word.now }
{
    while let [entry, others @ ..] = table {
        if word == entry.0 {
            return entry.1;
        }
        table = others;
    }
    Kind::Name
}

/// The kind of a word.
#[tactic(auto, unfolding(crate::specs::Kinds::word_kind))]
pub fn word_kind(word: &[u8]) -> Kind
    ensures { result ≡ spec.word_kind word.now }
{
    kind_in(&KEYWORDS, word)
}

/// The word of a kind by a table; no octets for a kind that is not in it.
fn word_in(mut table: &[(&'static [u8], Kind)], kind: Kind) -> &'static [u8]
    ensures { result.now ≡ spec.word_in (map (λ k. (k.0.now, k.1)) table.entry.now) (spec.code kind) }
{
    while let [entry, others @ ..] = table {
        if is_same(kind, entry.1) {
            return entry.0;
        }
        table = others;
    }
    &[]
}

/// The word of a keyword or an operator, as it is written; no octets for any other kind.
pub fn word_of(kind: Kind) -> &'static [u8]
    ensures { result.now ≡ spec.keyword kind }
{
    word_in(&KEYWORDS, kind)
}
