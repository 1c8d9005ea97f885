ghost use Rattle.std.specs.Prelude.{◌≡◌, ◌<◌, ◌==◌, ◌∷◌, [], length, map, position, IfOk, MatchOption};
ghost use Rattle.qu_notation.specs.Text.{lines_of, words_of};

use std::alloc::{AllocError, Global};

/// Cuts the first line off a text that is not empty.
#[tactic(auto, using(crate::proofs::TextFacts::line_facts))]
pub fn cut_line(text: &[u8]) -> (&[u8], &[u8])
    requires { 0 < length text.now }
    ensures first { lines_of text.now ≡ result.0.now ∷ lines_of result.1.now }
    ensures shorter { length result.1.now < length text.now }
{
    match line_end(text) {
        Some(end) => (&text[..end], &text[end + 1..]),
        None => (text, &text[text.len()..]),
    }
}

/// Where the first line feed stands.
fn line_end(text: &[u8]) -> Option<usize>
    ensures { result ≡ position (λ b. b == 10) text.now }
{
    text.iter().position(|byte| *byte == b'\n')
}

/// What stands between the spaces of a line, which is nothing between two spaces in a row. The error is want of memory.
pub fn split_at_spaces(alloc: Global, line: &[u8]) -> Result<Vec<&[u8]>, AllocError>
    ensures { IfOk result (λ words. map (λ word. word.now) words.items ≡ words_of line.now) }
{
    line.split(|byte| *byte == b' ').collect(alloc)
}

/// The first of some words, and the others. `None` where there is no word.
pub(crate) fn next_word<'a>(words: &'a [&'a [u8]]) -> Option<(&'a [u8], &'a [&'a [u8]])>
    ensures { MatchOption result (map (λ word. word.now) words.now ≡ [])
        (λ next. map (λ word. word.now) words.now
        ≡ next.0.now ∷ map (λ word. word.now) next.1.now) }
{
    let (word, rest) = words.split_first()?;
    Some((*word, rest))
}
