//! The readers of one token. Each goes past the token that it takes, and past none that it refuses.
ghost use Rattle.std.specs.Prelude.{◌≡◌, [], ◌∷◌, IfOk, OnErr};
ghost use Rattle.esi_base.specs.declared.stop.Stop.TheVariants.{Refused as stop_refused};
ghost use Rattle.ll1_grammar.specs.Readers.{refused};
ghost use Rattle.ll1_grammar.specs.Kinds.{among, first_lexeme};
ghost use Rattle.design_grammar.specs.Grammar as spec;
ghost use Rattle.design_grammar.specs.Kinds as kinds;

use crate::kind::{Kind, is_name, is_reserved, is_same, kind_of};
use crate::rule::GrammarRule;
use design_lex::{Class, Cursor, Spelling, Token};
use esi_base::{List, NoMemory, Octets, Stop};
use ll1_grammar::TokenRefusal;
use std::alloc::Global;

/// Why a reader stopped: it is refused at a token, or out of memory.
pub type TokenStop = Stop<TokenRefusal>;

/// The number of the refusal of a token where only one of this kind may stand; `Small` stands for
/// every count.
fn number_of_refusal(wanted: Kind, token: &Token<'_>) -> u16
    ensures { result ≡ kinds.refusal (kinds.code wanted ∷ []) token.now }
{
    match token {
        Token::End => GrammarRule::EarlyEnd.number(),
        Token::Faulty(rule) => rule.number(),
        _ => unwanted(wanted, kind_of(token)).number(),
    }
}

/// The stop at the token that comes next, where only one of this kind may stand.
pub fn refuse(cursor: &Cursor<'_>, wanted: Kind) -> TokenStop
    ensures { result ≡ stop_refused (refused spec.token_grammar (kinds.code wanted ∷ []) cursor.now) }
{
    Stop::Refused(TokenRefusal {
        number: number_of_refusal(wanted, cursor.peek()),
        at: cursor.token_begin(),
    })
}

/// The rule that a token of one kind breaks where only one of another kind may stand.
#[tactic(auto, unfolding(crate::specs::Kinds::unwanted))]
fn unwanted(wanted: Kind, found: Kind) -> GrammarRule
    ensures { result ≡ kinds.unwanted (kinds.code wanted ∷ []) (kinds.code found) }
{
    match wanted {
        Kind::Name if is_reserved(found) => GrammarRule::ReservedWord,
        Kind::One if is_number(found) => GrammarRule::UnknownVersion,
        Kind::Small if is_same(found, Kind::Great) => GrammarRule::GreatCount,
        _ => GrammarRule::UnexpectedToken,
    }
}

fn is_number(kind: Kind) -> bool
    ensures { result ≡ among kinds.numbers (kinds.code kind) }
{
    matches!(kind, Kind::One | Kind::Small | Kind::Great)
}

/// The offset of the token that comes next, 0 at the end.
fn next_begin(cursor: &Cursor<'_>) -> usize
    ensures { result ≡ (first_lexeme spec.token_grammar cursor.now).0.0 }
{
    cursor.token_begin().unwrap_or(0)
}

/// The offset behind the token that comes next, 0 at the end.
fn next_end(cursor: &Cursor<'_>) -> usize
    ensures { result ≡ (first_lexeme spec.token_grammar cursor.now).0.1 }
{
    cursor.token_end().unwrap_or(0)
}

/// One token of the kind: the offset behind it.
pub fn expect(cursor: &mut Cursor<'_>, wanted: Kind) -> Result<usize, TokenStop>
    ensures reads { spec.AnswersAt (spec.expect wanted cursor.old) result cursor.new }
    ensures stays { OnErr result (cursor.new ≡ cursor.old) }
    ensures stands { spec.StandsAt result cursor.new }
{
    if !is_same(kind_of(cursor.peek()), wanted) {
        return Err(refuse(cursor, wanted));
    }
    let end = next_end(cursor);
    cursor.advance();
    Ok(end)
}

/// One token of the kind: the offset of its first octet.
pub fn begin(cursor: &mut Cursor<'_>, wanted: Kind) -> Result<usize, TokenStop>
    ensures reads { spec.AnswersAt (spec.begin wanted cursor.old) result cursor.new }
    ensures stays { OnErr result (cursor.new ≡ cursor.old) }
    ensures stands { spec.StandsAt result cursor.new }
{
    if !is_same(kind_of(cursor.peek()), wanted) {
        return Err(refuse(cursor, wanted));
    }
    let begin = next_begin(cursor);
    cursor.advance();
    Ok(begin)
}

/// The octets of a word, none of any other token.
fn word_in<'a>(token: &Token<'a>) -> &'a [u8]
    ensures { result.now ≡ spec.word_in token.now }
{
    match token {
        Token::Word(word) => word.octets(),
        _ => &[],
    }
}

/// The word that comes next: its octets, and the offset of the first one.
fn next_name(cursor: &Cursor<'_>, alloc: Global) -> Result<(Octets, usize), NoMemory>
    ensures { IfOk result (λ named. named ≡ spec.named_in (first_lexeme spec.token_grammar cursor.now)) }
{
    let octets = List::from_slice(alloc, word_in(cursor.peek()))?;
    Ok((octets, next_begin(cursor)))
}

/// A name: its octets, and the offset of the first one.
pub fn name(cursor: &mut Cursor<'_>, alloc: Global) -> Result<(Octets, usize), TokenStop>
    ensures reads { spec.AnswersAt (spec.name cursor.old) result cursor.new }
    ensures stays { OnErr result (cursor.new ≡ cursor.old) }
    ensures stands { spec.StandsAt result cursor.new }
{
    if !is_name(kind_of(cursor.peek())) {
        return Err(refuse(cursor, Kind::Name));
    }
    let name = next_name(cursor, alloc)?;
    cursor.advance();
    Ok(name)
}

/// The word that comes next, where it stands in the text, and the offset of its first octet.
fn next_word<'a>(cursor: &Cursor<'a>) -> (Spelling<'a>, usize)
    ensures { result ≡ spec.named_in (first_lexeme spec.token_grammar cursor.now) }
{
    (Spelling::new(word_in(cursor.peek())), next_begin(cursor))
}

/// An operator of this kind, as a name: its octets, where they stand in the text, and the offset of the
/// first one.
pub fn operator<'a>(
    cursor: &mut Cursor<'a>,
    wanted: Kind,
) -> Result<(Spelling<'a>, usize), TokenStop>
    ensures reads { spec.AnswersAt (spec.operator wanted cursor.old) result cursor.new }
    ensures stays { OnErr result (cursor.new ≡ cursor.old) }
    ensures stands { spec.StandsAt result cursor.new }
{
    if !is_same(kind_of(cursor.peek()), wanted) {
        return Err(refuse(cursor, Kind::Name));
    }
    let word = next_word(cursor);
    cursor.advance();
    Ok(word)
}

fn is_count(kind: Kind) -> bool
    ensures { result ≡ among kinds.counts (kinds.code kind) }
{
    matches!(kind, Kind::One | Kind::Small)
}

/// The value of a number, 0 of any other token.
fn number_in(token: &Token<'_>) -> u128
    ensures { result ≡ spec.number_in token.now }
{
    match token {
        Token::Number(number) => *number,
        _ => 0,
    }
}

/// A count: a number below 2^32.
pub fn count(cursor: &mut Cursor<'_>) -> Result<u32, TokenStop>
    ensures reads { spec.AnswersAt (spec.count cursor.old) result cursor.new }
    ensures stays { OnErr result (cursor.new ≡ cursor.old) }
    ensures stands { spec.StandsAt result cursor.new }
{
    if !is_count(kind_of(cursor.peek())) {
        return Err(refuse(cursor, Kind::Small));
    }
    let count = number_in(cursor.peek()) as u32;
    cursor.advance();
    Ok(count)
}

/// Any number: its value, and the offset of its first octet.
pub fn number(cursor: &mut Cursor<'_>) -> Result<(u128, usize), TokenStop>
    ensures reads { spec.AnswersAt (spec.number cursor.old) result cursor.new }
    ensures stays { OnErr result (cursor.new ≡ cursor.old) }
    ensures stands { spec.StandsAt result cursor.new }
{
    if !is_number(kind_of(cursor.peek())) {
        return Err(refuse(cursor, Kind::Great));
    }
    let value = number_in(cursor.peek());
    let begin = next_begin(cursor);
    cursor.advance();
    Ok((value, begin))
}

/// The class and width of a type word, of no width for any other token.
fn width_in(token: &Token<'_>) -> (Class, u32)
    ensures { result ≡ spec.width_in token.now }
{
    match token {
        Token::TypeWord(class, width) => (*class, *width),
        _ => (Class::Unsigned, 0),
    }
}

/// A type word: its class and width, and the offset behind it.
pub fn type_word(cursor: &mut Cursor<'_>) -> Result<((Class, u32), usize), TokenStop>
    ensures reads { spec.AnswersAt (spec.type_word cursor.old) result cursor.new }
    ensures stays { OnErr result (cursor.new ≡ cursor.old) }
    ensures stands { spec.StandsAt result cursor.new }
{
    if !is_same(kind_of(cursor.peek()), Kind::TypeWord) {
        return Err(refuse(cursor, Kind::TypeWord));
    }
    let word = width_in(cursor.peek());
    let end = next_end(cursor);
    cursor.advance();
    Ok((word, end))
}
