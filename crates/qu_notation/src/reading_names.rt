ghost use Rattle.std.specs.Prelude.{◌≡◌, ◌==◌, ◌++◌, map, IfOk};
ghost use Rattle.std.specs.List.{list_all, slice_split};
ghost use Rattle.std.specs.Option.{option_map};
ghost use Rattle.qu_notation.specs.Names.{is_plain_byte, plain_bytes, coded_bytes, pieces_bytes, name_bytes};

use super::cut::next_word;
use super::names::is_plain_byte;
use hex::FromHexError;
use qu_base::{List, NoMemory};
use std::alloc::{AllocError, Global};

/// The bytes of a name: letters, digits, `.`, `_` and `-` stand for themselves, `%` and two hexadecimal digits for any
/// byte. `None` of a word with other bytes, and of one that has none.
#[tactic(auto, unfolding(crate::specs::Names::name_bytes))]
pub fn read_name(alloc: Global, word: &[u8]) -> Result<Option<List<u8>>, NoMemory>
    ensures { IfOk result (λ name. name ≡ name_bytes word.now) }
{
    if word.is_empty() {
        return Ok(None);
    }
    let pieces = cut_pieces(alloc, word)?;
    read_pieces(alloc, pieces.as_slice())
}

/// What stands before, between and behind the bytes `%`.
fn cut_pieces(alloc: Global, word: &[u8]) -> Result<Vec<&[u8]>, AllocError>
    ensures { IfOk result
        (λ pieces. map (λ piece. piece.now) pieces.items ≡ slice_split (λ byte. byte == 37) word.now) }
{
    word.split(|byte| *byte == b'%').collect(alloc)
}

/// The bytes of the pieces of a name.
#[tactic(auto, using(crate::proofs::NameFacts::piece_facts))]
fn read_pieces(alloc: Global, pieces: &[&[u8]]) -> Result<Option<List<u8>>, NoMemory>
    ensures { IfOk result (λ name. name ≡ pieces_bytes (map (λ piece. piece.now) pieces.now)) }
{
    let Some((first, coded)) = next_word(pieces) else {
        return Ok(None);
    };
    let Some(mut name) = read_plain(alloc, first)? else {
        return Ok(None);
    };
    for piece in coded {
        let Some(bytes) = read_coded(alloc, piece)? else {
            return Ok(None);
        };
        name.extend_from_slice(bytes.as_slice())?;
    }
    Ok(Some(List::from(name)))
}

/// Bytes that stand for themselves.
#[tactic(auto, unfolding(crate::specs::Names::plain_bytes))]
fn read_plain(alloc: Global, piece: &[u8]) -> Result<Option<Vec<u8>>, NoMemory>
    ensures { IfOk result (λ bytes. option_map (λ bytes. bytes.items) bytes ≡ plain_bytes piece.now) }
{
    if !are_plain(piece) {
        return Ok(None);
    }
    Ok(Some(List::from_clones(alloc, piece)?.into_vec()))
}

/// Whether all bytes stand for themselves.
fn are_plain(piece: &[u8]) -> bool
    ensures { result ≡ list_all is_plain_byte piece.now }
{
    piece.iter().all(|byte| is_plain_byte(*byte))
}

/// A byte by two digits, and bytes that stand for themselves.
#[tactic(auto, unfolding(crate::specs::Names::coded_bytes))]
fn read_coded(alloc: Global, piece: &[u8]) -> Result<Option<Vec<u8>>, NoMemory>
    ensures { IfOk result (λ bytes. option_map (λ bytes. bytes.items) bytes ≡ coded_bytes piece.now) }
{
    let [high, low, plain @ ..] = piece else {
        return Ok(None);
    };
    let mut bytes = match hex::decode(alloc, &[*high, *low]) {
        Ok(bytes) => bytes,
        Err(FromHexError::OutOfMemory) => return Err(NoMemory),
        Err(_) => return Ok(None),
    };
    let Some(more) = read_plain(alloc, plain)? else {
        return Ok(None);
    };
    bytes.extend_from_slice(more.as_slice())?;
    Ok(Some(bytes))
}
