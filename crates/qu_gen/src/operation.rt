ghost use Rattle.std.specs.Prelude.{◌≡◌, ◌≤◌, ◌<◌, [], ◌∷◌, ◌++◌, OnOk, string_bytes};
ghost use Rattle.qu_notation.specs.Bytes.{bytes_text};
ghost use Rattle.qu_gen.specs.Operation.{operation_at, move_words, called, called_on_counter, called_on_blob, called_on_directory};

use qu_base::{ClientId, NoMemory, ObjectId};
use qu_notation::put_bytes_text;

/// How many operations a script has.
pub(crate) const OPERATIONS: u16 = 400;

/// Clients are numbered from 1 to this.
const CLIENTS: u16 = 4;

/// Objects are numbered from 0 to below this: counters first, then a blob and a directory.
pub(crate) const OBJECTS: u16 = 8;

const LAST_COUNTER: u16 = 5;

const BLOB: u16 = 6;

const DIRECTORY: u16 = 7;

/// An operation of a script: which client is called, on which object, and how often all clients were called before.
#[derive(Drop)]
pub(crate) struct Operation {
    pub(crate) client: ClientId,
    object: ObjectId,
    turn: u8,
}

impl Operation {
    /// The operation at a place, from 1 on, of the script of a number.
    pub(crate) fn at(number: u64, place: u16) -> Operation
        requires first { 1 ≤ place }
        requires last { place ≤ OPERATIONS }
        ensures { result ≡ operation_at number place }
    {
        let earlier = place - 1;
        let turn = earlier / CLIENTS;
        let object = turn + (number % u64::from(OBJECTS)) as u16;
        Operation {
            client: ClientId(1 + earlier % CLIENTS),
            object: ObjectId(object % OBJECTS),
            turn: turn as u8,
        }
    }

    /// Writes what the client is called for. Without memory a part may be written.
    #[tactic(auto, unfolding(crate::specs::Operation::called))]
    pub(crate) fn put(&self, text: &mut String) -> Result<(), NoMemory>
        requires { self.now.object.0 < OBJECTS }
        ensures { OnOk result (string_bytes text.new ≡ string_bytes text.old ++ called self.now) }
    {
        match self.object.0 {
            BLOB => self.put_on_blob(text),
            DIRECTORY => self.put_on_directory(text),
            counter => self.put_on_counter(text, counter),
        }
    }

    /// Writes that a client adds to a counter, moves one of it on, or reads it.
    #[tactic(auto, unfolding(crate::specs::Operation::called_on_counter))]
    fn put_on_counter(&self, text: &mut String, counter: u16) -> Result<(), NoMemory>
        requires same { counter ≡ self.now.object.0 }
        requires last { counter ≤ LAST_COUNTER }
        ensures { OnOk result (string_bytes text.new ≡ string_bytes text.old ++ called_on_counter self.now) }
    {
        match self.client.0 {
            1 | 2 => {
                let amount = 1 + self.turn % 7;
                write!(text, "add {counter} {amount}")?;
            }
            3 => put_move(text, counter)?,
            _ => write!(text, "read {counter}")?,
        }
        Ok(())
    }

    /// Writes that a client puts or appends a byte, or reads all.
    #[tactic(auto, unfolding(crate::specs::Operation::called_on_blob))]
    fn put_on_blob(&self, text: &mut String) -> Result<(), NoMemory>
        ensures { OnOk result (string_bytes text.new ≡ string_bytes text.old ++ called_on_blob self.now) }
    {
        match self.client.0 {
            1 => put_on_byte(text, "put 6 ", self.turn),
            2 => put_on_byte(text, "append 6 ", self.turn),
            _ => Ok(text.push_str("cat 6")?),
        }
    }

    /// Writes that a client links a name, finds it, unlinks it, or lists all.
    #[tactic(auto, unfolding(crate::specs::Operation::called_on_directory))]
    fn put_on_directory(&self, text: &mut String) -> Result<(), NoMemory>
        ensures { OnOk result (string_bytes text.new ≡ string_bytes text.old ++ called_on_directory self.now) }
    {
        let turn = self.turn;
        match self.client.0 {
            1 => write!(text, "link 7 n{turn} {turn}")?,
            2 => write!(text, "find 7 n{turn}")?,
            3 => write!(text, "unlink 7 n{turn}")?,
            _ => text.push_str("list 7")?,
        }
        Ok(())
    }
}

/// Writes that one is taken of a counter and added to the next one. The parts of an act stand by rising objects.
fn put_move(text: &mut String, counter: u16) -> Result<(), NoMemory>
    requires { counter ≤ LAST_COUNTER }
    ensures { OnOk result (string_bytes text.new ≡ string_bytes text.old ++ move_words counter) }
{
    if counter == LAST_COUNTER {
        text.push_str("add 0 1 + take 5 1")?;
    } else {
        let next = counter + 1;
        write!(text, "take {counter} 1 + add {next} 1")?;
    }
    Ok(())
}

/// Writes these words, and a byte behind them.
fn put_on_byte(text: &mut String, words: &str, byte: u8) -> Result<(), NoMemory>
    ensures { OnOk result (string_bytes text.new ≡ string_bytes text.old ++ words.now ++ bytes_text (byte ∷ [])) }
{
    text.push_str(words)?;
    put_bytes_text(text, &[byte])
}
