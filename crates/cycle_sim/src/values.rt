//! The words of all nets.
ghost use Rattle.std.specs.Prelude.{◌≡◌, ◌/◌, ◌<◌, ◌≤◌, ◌^◌, IfOk, length, map};
ghost use Rattle.std.specs.List.{slice_index_or, slice_set};
ghost use Rattle.esi_base.specs.Bits.{bits_of, number_of};
ghost use Rattle.netlist.specs.Nets.{word_at};
ghost use Rattle.cycle_sim.specs.Stored.{shown_word, stored_number};

use esi_base::{List, NoMemory, Word};
use netlist::MAX_NUMBER_WIDTH;
use std::alloc::Global;
use std::marker::Model;

/// A word for each net, which keeps its width. Contracts see the words. A word of at most 64 bits is stored
/// as a number, so that it is read and put without a copy of 1,024 bits; the word beside it tells its width.
#[derive(Drop)]
pub(crate) struct Values {
    words: List<Word>,
    numbers: List<u64>,
}

impl Model for Values {
    ghost use Rattle.std.specs.Prelude.{List, Bool};

    ghost Value = { List (List Bool) };

    ghost use Rattle.cycle_sim.specs.Stored.{shown, AreStored};

    ghost view = { λ v. shown v.words v.numbers };

    ghost invariant = { λ v. AreStored v.words v.numbers };
}

impl Values {
    /// The words of a list.
    pub fn new(alloc: Global, words: List<Word>) -> Result<Values, NoMemory>
        ensures { IfOk result (λ values. values ≡ words) }
    {
        let numbers = stored_numbers(alloc, words.as_slice())?;
        Ok(Values { words, numbers })
    }

    /// The word at a place.
    pub fn word(&self, place: usize) -> Word
        requires { place < length self.now }
        ensures { result ≡ word_at self.now place }
    {
        stored_word(self.words.as_slice(), self.numbers.as_slice(), place)
    }

    /// The number that a word of at most 64 bits is.
    pub fn number(&self, place: usize) -> u64
        requires within { place < length self.now }
        requires narrow { length (word_at self.now place) ≤ 64 }
        ensures { result ≡ number_of (word_at self.now place) }
    {
        let numbers = self.numbers.as_slice();
        prove!(place < numbers.len());
        numbers[place]
    }

    /// Puts a word at a place, as wide as the one that is there.
    pub fn put(&mut self, place: usize, word: Word)
        requires within { place < length self.old }
        requires width { length word ≡ length (word_at self.old place) }
        ensures { self.new ≡ slice_set self.old place word }
    {
        if word.width() <= MAX_NUMBER_WIDTH {
            self.put_number(place, word_number(&word));
        } else {
            self.put_wide(place, word);
        }
    }

    /// Puts the word of a width that stands at a place of other words, where there is a word as wide.
    pub fn put_from(&mut self, place: usize, others: &Values, at: usize, width: u32)
        requires within { place < length self.old }
        requires at { at < length others.now }
        requires width { length (word_at others.now at) ≡ width }
        requires same { length (word_at self.old place) ≡ width }
        ensures { self.new ≡ slice_set self.old place (word_at others.now at) }
    {
        if width <= MAX_NUMBER_WIDTH {
            self.put_number(place, others.number(at));
        } else {
            self.put(place, others.word(at));
        }
    }

    /// Puts a number at a place, where there is a word of at most 64 bits, which the number fits.
    pub fn put_number(&mut self, place: usize, number: u64)
        requires within { place < length self.old }
        requires narrow { length (word_at self.old place) ≤ 64 }
        requires fits { number < 2 ^ length (word_at self.old place) }
        ensures { self.new ≡ slice_set self.old place (bits_of (length (word_at self.old place)) number) }
    {
        let _before = self.numbers.set(place, number);
    }

    /// Puts a word of more than 64 bits at a place, as wide as the one that is there.
    fn put_wide(&mut self, place: usize, word: Word)
        requires within { place < length self.old }
        requires width { length word ≡ length (word_at self.old place) }
        requires wide { 64 < length word }
        ensures { self.new ≡ slice_set self.old place word }
    {
        let _before = self.words.set(place, word);
    }
}

/// The word that is stored at a place, as a word and a number.
fn stored_word(words: &[Word], numbers: &[u64], place: usize) -> Word
    requires words { place < length words.now }
    requires numbers { place < length numbers.now }
    requires fits { slice_index_or numbers.now place 0 < 2 ^ length (word_at words.now place) }
    ensures { result ≡ shown_word (word_at words.now place) (slice_index_or numbers.now place 0) }
{
    word_of(&words[place], numbers[place])
}

/// The word that is stored as a word and a number.
fn word_of(word: &Word, number: u64) -> Word
    requires { number < 2 ^ length word.now }
    ensures { result ≡ shown_word word.now number }
{
    if word.width() <= MAX_NUMBER_WIDTH {
        Word::from_u128(word.width(), u128::from(number))
    } else {
        *word
    }
}

/// The numbers that are stored for words.
fn stored_numbers(alloc: Global, words: &[Word]) -> Result<List<u64>, NoMemory>
    ensures { IfOk result (λ numbers. numbers ≡ map stored_number words.now) }
{
    let numbers = words
        .iter()
        .map(|word| number_to_store(word))
        .collect(alloc)?;
    Ok(List::from_vec(numbers))
}

/// The number that is stored for a word: its own, or 0 where it has more than 64 bits.
fn number_to_store(word: &Word) -> u64
    ensures { result ≡ stored_number word.now }
{
    if word.width() <= MAX_NUMBER_WIDTH {
        word_number(word)
    } else {
        0
    }
}

/// The number that a word of at most 64 bits is.
pub(crate) fn word_number(word: &Word) -> u64
    requires { length word.now ≤ 64 }
    ensures { result ≡ number_of word.now }
{
    prove!(1 <= word.width());
    word.limb(0)
}
