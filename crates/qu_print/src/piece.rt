ghost use Rattle.std.specs.Prelude.{◌≡◌, ◌++◌, OnOk, string_bytes, codes};
ghost use Rattle.std.specs.Fmt.{decimal};
ghost use Rattle.std.specs.List.{join_by};
ghost use Rattle.qu_notation.specs.Bytes.{bytes_text};
ghost use Rattle.qu_notation.specs.Names.{written_name};

use qu_base::{List, NoMemory, ObjectId};
use qu_notation::{put_bytes_text, put_entries_text, put_name_text};
use qu_objects::{Ask, Item, Method};

/// What stands in a line with others of its kind, ` + ` between each two.
pub trait Piece {
    ghost use Rattle.std.specs.Prelude.{List, ℕ};

    ghost text_of: { Self → List ℕ };

    /// Writes the piece. `NoMemory` where the text cannot grow; it may then have a part of the piece.
    fn put(&self, text: &mut String) -> Result<(), NoMemory>
        ensures { OnOk result (string_bytes text.new ≡ string_bytes text.old ++ text_of self.now) };
}

impl Piece for (ObjectId, Method) {
    ghost use Rattle.qu_print.specs.Words.{act_part_text};

    ghost text_of = { act_part_text };

    fn put(&self, text: &mut String) -> Result<(), NoMemory> {
        let (object, method) = self;
        let object = object.0;
        match method {
            Method::Add(number) => write!(text, "add {object} {number}")?,
            Method::Take(number) => write!(text, "take {object} {number}")?,
            Method::Put(content) => put_on_bytes(text, "put", object, content)?,
            Method::Append(more) => put_on_bytes(text, "append", object, more)?,
            Method::Link(name, number) => {
                put_on_name(text, "link", object, name)?;
                write!(text, " {number}")?;
            }
            Method::Unlink(name) => put_on_name(text, "unlink", object, name)?,
        }
        Ok(())
    }
}

impl Piece for (ObjectId, Ask) {
    ghost use Rattle.qu_print.specs.Words.{query_part_text};

    ghost text_of = { query_part_text };

    fn put(&self, text: &mut String) -> Result<(), NoMemory> {
        let (object, ask) = self;
        let object = object.0;
        match ask {
            Ask::Read => write!(text, "read {object}")?,
            Ask::Cat => write!(text, "cat {object}")?,
            Ask::Find(name) => put_on_name(text, "find", object, name)?,
            Ask::All => write!(text, "list {object}")?,
        }
        Ok(())
    }
}

impl Piece for Item {
    ghost use Rattle.qu_print.specs.Words.{item_text};

    ghost text_of = { item_text };

    fn put(&self, text: &mut String) -> Result<(), NoMemory> {
        match self {
            Item::Number(number) => write!(text, "{number}")?,
            Item::Bytes(bytes) => put_bytes_text(text, bytes.as_slice())?,
            Item::Entries(entries) => put_entries_text(text, entries.as_slice())?,
        }
        Ok(())
    }
}

/// Writes an operation on an object with bytes.
fn put_on_bytes(
    text: &mut String,
    verb: &str,
    object: u16,
    bytes: &List<u8>,
) -> Result<(), NoMemory>
    ensures { OnOk result (string_bytes text.new
        ≡ string_bytes text.old ++ verb.now ++ codes " " ++ decimal object ++ codes " " ++ bytes_text bytes.now) }
{
    write!(text, "{verb} {object} ")?;
    put_bytes_text(text, bytes.as_slice())
}

/// Writes an operation on an object with a name.
fn put_on_name(text: &mut String, verb: &str, object: u16, name: &List<u8>) -> Result<(), NoMemory>
    ensures { OnOk result (string_bytes text.new
        ≡ string_bytes text.old ++ verb.now ++ codes " " ++ decimal object ++ codes " " ++ written_name name.now) }
{
    write!(text, "{verb} {object} ")?;
    put_name_text(text, name.as_slice())
}

/// Writes the pieces, with ` + ` between each two.
pub fn put_joined<P: Piece>(text: &mut String, pieces: &[P]) -> Result<(), NoMemory>
    ensures { OnOk result (string_bytes text.new
        ≡ string_bytes text.old ++ join_by P.text_of (codes " + ") pieces.now) }
{
    if let Some((first, rest)) = pieces.split_first() {
        first.put(text)?;
        for piece in rest {
            text.push_str(" + ")?;
            piece.put(text)?;
        }
    }
    Ok(())
}
