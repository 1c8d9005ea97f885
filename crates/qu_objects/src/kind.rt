//! Values of all kinds of objects: each does what its kind says, and refuses what is none of its kind.
ghost use Rattle.std.specs.Prelude.{◌≡◌, IfOk};
ghost use Rattle.qu_objects.specs.Kind.{fresh_value, applied, counter_update, blob_update, dir_update, counter_query, blob_query, dir_query, of_kind, value_told, told_by};
ghost use Rattle.qu_objects.specs.declared.kind.Value.TheVariants as value;

use super::{Ask, Method, WRONG_KIND};
use kind_blob::{Blob, BlobQuery, BlobUpdate};
use kind_counter::{Counter, CounterQuery, CounterUpdate};
use kind_dir::{Dir, DirQuery, DirUpdate};
use qu_base::{Applied, Kind, List, NoMemory, Told};
use std::alloc::Global;

/// The kind of an object.
#[derive(Clone, Copy, PartialEq, Eq)]
pub enum KindName {
    Counter,
    Blob,
    Dir,
}

/// The value of an object, which contracts see as a number, a list of bytes, or a list of entries.
pub enum Value {
    Counter(Counter),
    Blob(Blob),
    Dir(Dir),
}

/// By hand, so that a value is let go in one step wherever that is.
impl Drop for Value {
    fn drop(self) {
        match self {
            Value::Counter(_) | Value::Blob(_) | Value::Dir(_) => {}
        }
    }
}

impl Value {
    /// The value before any update.
    pub fn fresh(alloc: Global, kind: KindName) -> Result<Value, NoMemory>
        ensures { IfOk result (λ value. value ≡ fresh_value kind) }
    {
        Ok(match kind {
            KindName::Counter => Value::Counter(Counter::fresh(alloc)?),
            KindName::Blob => Value::Blob(Blob::fresh(alloc)?),
            KindName::Dir => Value::Dir(Dir::fresh(alloc)?),
        })
    }

    /// What an update makes of the value.
    pub fn apply(&self, alloc: Global, method: &Method) -> Result<Applied<Value>, NoMemory>
        ensures { IfOk result (λ outcome. outcome ≡ applied method.now self.now) }
    {
        match self {
            Value::Counter(counter) => match counter_update(method) {
                Some(update) => Ok(of_counter(applied_to(alloc, counter, &update)?)),
                None => Ok(Applied::Refused(WRONG_KIND)),
            },
            Value::Blob(blob) => match blob_update(alloc, method)? {
                Some(update) => Ok(of_blob(applied_to(alloc, blob, &update)?)),
                None => Ok(Applied::Refused(WRONG_KIND)),
            },
            Value::Dir(dir) => match dir_update(alloc, method)? {
                Some(update) => Ok(of_dir(applied_to(alloc, dir, &update)?)),
                None => Ok(Applied::Refused(WRONG_KIND)),
            },
        }
    }

    /// What an ask is told of the value.
    pub fn tell(&self, alloc: Global, ask: &Ask) -> Result<Told, NoMemory>
        ensures { IfOk result (λ outcome. outcome ≡ value_told ask.now self.now) }
    {
        match self {
            Value::Counter(counter) => told_by(alloc, counter, &counter_query(ask)),
            Value::Blob(blob) => told_by(alloc, blob, &blob_query(ask)),
            Value::Dir(dir) => told_by(alloc, dir, &dir_query(alloc, ask)?),
        }
    }

    /// An equal value.
    pub fn copy(&self, alloc: Global) -> Result<Value, NoMemory>
        ensures { IfOk result (λ copied. copied ≡ self.now) }
    {
        Ok(match self {
            Value::Counter(counter) => Value::Counter(*counter),
            Value::Blob(blob) => Value::Blob(blob.copy(alloc)?),
            Value::Dir(dir) => Value::Dir(dir.copy(alloc)?),
        })
    }

    /// Equal values.
    pub fn copy_all(alloc: Global, values: &[Value]) -> Result<List<Value>, NoMemory>
        ensures { IfOk result (λ copies. copies ≡ values.now) }
    {
        let mut copies = List::new(alloc);
        for value in values {
            copies.push(value.copy(alloc)?)?;
        }
        Ok(copies)
    }
}

/// What an update of its kind makes of a value.
fn applied_to<K: Kind>(alloc: Global, value: &K, update: &K::Update) -> Result<Applied<K>, NoMemory>
    ensures { IfOk result (λ outcome. outcome ≡ K.applied update.now value.now) }
{
    value.apply(alloc, update)
}

/// What a query of its kind is told of a value; one of another kind is refused.
fn told_by<K: Kind>(alloc: Global, value: &K, query: &Option<K::Query>) -> Result<Told, NoMemory>
    ensures { IfOk result (λ outcome. outcome ≡ told_by K.told query.now value.now) }
{
    match query {
        Some(query) => value.tell(alloc, query),
        None => Ok(Told::Refused(WRONG_KIND)),
    }
}

/// What is made of a counter, as what is made of a value.
fn of_counter(outcome: Applied<Counter>) -> Applied<Value>
    ensures { result ≡ of_kind value.Counter outcome }
{
    match outcome {
        Applied::Changed(counter, item) => Applied::Changed(Value::Counter(counter), item),
        Applied::Refused(why) => Applied::Refused(why),
    }
}

/// What is made of a blob, as what is made of a value.
fn of_blob(outcome: Applied<Blob>) -> Applied<Value>
    ensures { result ≡ of_kind value.Blob outcome }
{
    match outcome {
        Applied::Changed(blob, item) => Applied::Changed(Value::Blob(blob), item),
        Applied::Refused(why) => Applied::Refused(why),
    }
}

/// What is made of a directory, as what is made of a value.
fn of_dir(outcome: Applied<Dir>) -> Applied<Value>
    ensures { result ≡ of_kind value.Dir outcome }
{
    match outcome {
        Applied::Changed(dir, item) => Applied::Changed(Value::Dir(dir), item),
        Applied::Refused(why) => Applied::Refused(why),
    }
}

/// The update of a counter that a method is, if it is one.
fn counter_update(method: &Method) -> Option<CounterUpdate>
    ensures { result ≡ counter_update method.now }
{
    match method {
        Method::Add(more) => Some(CounterUpdate::Add(*more)),
        Method::Take(fewer) => Some(CounterUpdate::Take(*fewer)),
        _ => None,
    }
}

/// The update of a blob that a method is, if it is one.
fn blob_update(alloc: Global, method: &Method) -> Result<Option<BlobUpdate>, NoMemory>
    ensures { IfOk result (λ update. update ≡ blob_update method.now) }
{
    Ok(match method {
        Method::Put(content) => Some(BlobUpdate::Put(content.copy(alloc)?)),
        Method::Append(more) => Some(BlobUpdate::Append(more.copy(alloc)?)),
        _ => None,
    })
}

/// The update of a directory that a method is, if it is one.
fn dir_update(alloc: Global, method: &Method) -> Result<Option<DirUpdate>, NoMemory>
    ensures { IfOk result (λ update. update ≡ dir_update method.now) }
{
    Ok(match method {
        Method::Link(name, number) => Some(DirUpdate::Link(name.copy(alloc)?, *number)),
        Method::Unlink(name) => Some(DirUpdate::Unlink(name.copy(alloc)?)),
        _ => None,
    })
}

/// The query of a counter that an ask is, if it is one.
fn counter_query(ask: &Ask) -> Option<CounterQuery>
    ensures { result ≡ counter_query ask.now }
{
    match ask {
        Ask::Read => Some(CounterQuery::Read),
        _ => None,
    }
}

/// The query of a blob that an ask is, if it is one.
fn blob_query(ask: &Ask) -> Option<BlobQuery>
    ensures { result ≡ blob_query ask.now }
{
    match ask {
        Ask::Cat => Some(BlobQuery::Cat),
        _ => None,
    }
}

/// The query of a directory that an ask is, if it is one.
fn dir_query(alloc: Global, ask: &Ask) -> Result<Option<DirQuery>, NoMemory>
    ensures { IfOk result (λ query. query ≡ dir_query ask.now) }
{
    Ok(match ask {
        Ask::Find(name) => Some(DirQuery::Find(name.copy(alloc)?)),
        Ask::All => Some(DirQuery::All),
        _ => None,
    })
}
