//! What every kind of objects has: values, updates that change them, queries that are told of them, and bytes.
ghost use Rattle.std.specs.Prelude.{◌≡◌, ◌++◌, IfOk, OnOk, OnErr};
ghost use Rattle.qu_base.specs.declared.kind.Item.{Item};
ghost use Rattle.qu_base.specs.declared.kind.Applied.{Applied};
ghost use Rattle.qu_base.specs.declared.kind.Applied.TheVariants as made;
ghost use Rattle.qu_base.specs.declared.kind.Told.{Told};
ghost use Rattle.qu_base.specs.Format.{Format, IsPrefixCode};
ghost use Rattle.qu_base.specs.Reading.{IsGiven};

use super::{Cursor, List, NoMemory, Outbytes, ReadFail};
use std::alloc::Global;

/// What one part of an operation answers.
#[derive(Clone, Debug, PartialEq, Eq)]
pub enum Item {
    /// A counter's value, a length, a number of entries, or the number of a name.
    Number(u64),
    /// What a blob holds.
    Bytes(List<u8>),
    /// What a directory holds: names, by rising bytes, each with its number.
    Entries(List<(List<u8>, u64)>),
}

/// By hand, so that a value is let go in one step wherever that is.
impl Drop for Item {
    fn drop(self) {
        match self {
            Item::Number(_) | Item::Bytes(_) | Item::Entries(_) => {}
        }
    }
}

/// What an update makes of a value.
#[derive(Debug, Drop)]
pub enum Applied<V> {
    /// The new value, and what is answered.
    Changed(V, Item),
    /// The value stays, and the number of the refusal is answered.
    Refused(u8),
}

/// What a query is told of a value.
#[derive(Debug, Drop)]
pub enum Told {
    Item(Item),
    /// The number of the refusal.
    Refused(u8),
}

/// A kind of objects: its values, what updates make of them, what queries are told of them, and their bytes.
pub trait Kind: Sized + Drop {
    /// What changes a value.
    type Update;

    /// What is asked of a value.
    type Query;

    /// The value before any update.
    ghost first: { Self };

    /// What an update makes of a value.
    ghost applied: { Self.Update → Self → Applied Self };

    /// What a query is told of a value.
    ghost told: { Self.Query → Self → Told };

    /// The updates whose numbers fit their bytes.
    ghost update_fits: { Self.Update → Type 0 };

    /// The bytes of a value.
    ghost form: { Format Self };

    /// The value before any update.
    fn fresh(alloc: Global) -> Result<Self, NoMemory>
        ensures { IfOk result (λ value. value ≡ first) };

    /// What an update makes of the value, which itself stays.
    fn apply(&self, alloc: Global, update: &Self::Update) -> Result<Applied<Self>, NoMemory>
        ensures { IfOk result (λ outcome. outcome ≡ applied update.now self.now) };

    /// What a query is told of the value.
    fn tell(&self, alloc: Global, query: &Self::Query) -> Result<Told, NoMemory>
        ensures { IfOk result (λ outcome. outcome ≡ told query.now self.now) };

    /// Appends the value's bytes. Without memory the text stays as it is.
    fn write(&self, out: &mut Outbytes) -> Result<(), NoMemory>
        ensures ok { OnOk result (out.new ≡ out.old ++ form.spell self.now) }
        ensures err { OnErr result (out.new ≡ out.old) };

    /// The next value. A refusal is that of the first field that fails. Without a value the text stays as it is.
    fn read(alloc: Global, text: &mut Cursor<'_>) -> Result<Self, ReadFail>
        ensures read { IsGiven form result text.old text.new }
        ensures kept { OnErr result (text.new ≡ text.old) };

    /// Each value has one spelling, and no spelling begins another.
    ghost code: { IsPrefixCode form };

    /// What has bytes at first has bytes ever after.
    ghost first_fits: { form.Fits first };

    /// What an update that has bytes changes a value into has bytes.
    ghost changed_fits: { (update : Self.Update) (value changed : Self) (item : Item) → update_fits update
        → form.Fits value → applied update value ≡ made.Changed changed item → form.Fits changed };
}
