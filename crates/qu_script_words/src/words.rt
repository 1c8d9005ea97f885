ghost use Rattle.std.specs.Prelude.{◌≡◌, length, map, IfOk};
ghost use Rattle.std.specs.Result.{result_map_both};
ghost use Rattle.qu_script_words.specs.Words.{is_nil, has_bytes, words_in, is_ascii_word, next_of, end_of, next_of_part, behind_plus};

use super::BadKind;
use qu_notation::split_at_spaces;
use std::alloc::{AllocError, Global};
use std::marker::Model;

/// The words of a line, which one or more spaces part. The error is want of memory.
pub fn cut_words(alloc: Global, line: &[u8]) -> Result<Vec<&[u8]>, AllocError>
    ensures { IfOk result (λ words. map (λ word. word.now) words.items ≡ words_in line.now) }
{
    let pieces = split_at_spaces(alloc, line)?;
    let mut words = Vec::new(alloc);
    for piece in pieces.as_slice() {
        if has_bytes(piece) {
            words.push(*piece)?;
        }
    }
    Ok(words)
}

fn has_bytes(piece: &[u8]) -> bool
    ensures { result ≡ has_bytes piece.now }
{
    !piece.is_empty()
}

/// Whether a word has printable ASCII characters alone.
fn is_ascii_word(word: &[u8]) -> bool
    ensures { result ≡ is_ascii_word word.now }
{
    word.iter().all(|byte| 32 <= *byte && *byte <= 126)
}

/// The words of a line that were not taken yet. Contracts see them as a list.
#[derive(Drop)]
pub struct Words<'a> {
    words: &'a [&'a [u8]],
    taken: usize,
}

impl<'a> Model for Words<'a> {
    ghost use Rattle.std.specs.Prelude.{ℕ, List, ◌≤◌, length, map, drop};

    ghost Value = { List (List ℕ) };

    ghost view = { λ words. drop words.taken (map (λ word. word.now) words.words.now) };

    ghost invariant = { λ words. words.taken ≤ length words.words.now };
}

impl<'a> Words<'a> {
    /// All these words.
    pub fn of(words: &'a [&'a [u8]]) -> Words<'a>
        ensures { result ≡ map (λ word. word.now) words.now }
    {
        Words { words, taken: 0 }
    }

    /// Whether no word is left.
    #[tactic(auto, using(crate::proofs::WordFacts::left_facts))]
    pub fn is_empty(&self) -> bool
        ensures { result ≡ is_nil self.now }
    {
        self.taken == self.words.len()
    }

    /// How many words are left.
    #[tactic(auto, using(crate::proofs::WordFacts::left_counts))]
    pub fn left(&self) -> usize
        ensures { result ≡ length self.now }
    {
        self.words.len() - self.taken
    }

    /// Takes the next word.
    #[tactic(auto, using(crate::proofs::WordFacts::word_facts))]
    pub fn next(&mut self) -> Result<&'a [u8], BadKind>
        ensures { result_map_both (λ word. (word.now, self.new)) (λ kind. kind) result ≡ next_of self.old }
    {
        if self.taken == self.words.len() {
            return Err(BadKind::WrongCount);
        }
        let word = self.words[self.taken];
        if !is_ascii_word(word) {
            return Err(BadKind::NotAscii);
        }
        self.taken += 1;
        Ok(word)
    }

    /// Takes the next word of a part of an operation.
    pub fn next_of_part(&mut self) -> Result<&'a [u8], BadKind>
        ensures { result_map_both (λ word. (word.now, self.new)) (λ kind. kind) result ≡ next_of_part self.old }
    {
        let word = self.next()?;
        if word == b"+".as_slice() {
            return Err(BadKind::WrongCount);
        }
        Ok(word)
    }

    /// Takes the `+` between two parts of an operation.
    #[tactic(auto, unfolding(crate::specs::Words::behind_plus))]
    pub fn join(&mut self) -> Result<(), BadKind>
        ensures { result_map_both (λ done. self.new) (λ kind. kind) result ≡ behind_plus self.old }
    {
        let word = self.next()?;
        if word != b"+".as_slice() {
            return Err(BadKind::WrongCount);
        }
        Ok(())
    }

    /// That no word is left.
    pub fn end(&mut self) -> Result<(), BadKind>
        ensures { result ≡ end_of self.old }
    {
        if self.is_empty() {
            return Ok(());
        }
        let _word = self.next()?;
        Err(BadKind::WrongCount)
    }
}
