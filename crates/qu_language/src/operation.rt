ghost use Rattle.std.specs.Prelude.{◌≡◌, ◌<◌, ◌+◌, ◌-◌, ℕ, length, nat_le, IfOk, IsTrue};
ghost use Rattle.std.specs.Result.{result_map_both};
ghost use Rattle.qu_base.specs.declared.limits.TheConstants.{CONTENT_LIMIT, NAME_LIMIT, OBJECT_IDS};
ghost use Rattle.qu_script_words.specs.Meaning.{IsReadAs};
ghost use Rattle.qu_script_words.specs.Rules.{number_rule, content_rule, name_rule};
ghost use Rattle.qu_language.specs.Operation.{ask_verb_rule, argument, verb_rule, verb_behind, object_behind, called_behind, part_rule, part_behind, joined_part, more_parts, op_rule};
ghost use Rattle.qu_language.specs.Parts.{is_of_query, are_below, is_sized_part, AreBuilt};

use super::parts::Parts;
use qu_base::{List, ObjectId};
use qu_objects::{Ask, MOST_PARTS, Method, Op};
use qu_script_words::{
    BadKind, LineFail, Words, read_content, read_name, read_number, read_object,
};
use std::alloc::Global;

/// What a part of an operation does or asks, by its first word.
#[derive(Clone, Copy, PartialEq, Eq)]
pub enum Verb {
    Add,
    Take,
    Put,
    Append,
    Link,
    Unlink,
    Read,
    Cat,
    Find,
    All,
}

impl Verb {
    /// Whether it is one of a query.
    pub fn is_of_query(self) -> bool
        ensures { result ≡ is_of_query self }
    {
        match self {
            Verb::Read | Verb::Cat | Verb::Find | Verb::All => true,
            Verb::Add | Verb::Take | Verb::Put | Verb::Append | Verb::Link | Verb::Unlink => false,
        }
    }
}

/// What a part of an operation does to its object, or asks of it.
#[derive(Drop)]
pub enum Part {
    Does(Method),
    Asks(Ask),
}

/// An operation on some of so many objects: its parts, with a `+` between each two.
#[tactic(auto, unfolding(crate::specs::Operation::op_rule))]
pub fn read_operation(alloc: Global, objects: usize, words: &mut Words<'_>) -> Result<Op, LineFail>
    ensures { IsReadAs (λ op. op) result (op_rule objects words.old) }
{
    let first = read_part_behind(alloc, objects, Parts::none(alloc), words)?;
    Ok(read_more_parts(alloc, objects, first, words)?.operation())
}

/// The parts behind the first one, while words are left.
#[tactic(auto, using(crate::proofs::PartFacts::more_facts))]
fn read_more_parts(
    alloc: Global,
    objects: usize,
    first: Parts,
    words: &mut Words<'_>,
) -> Result<Parts, LineFail>
    requires { AreBuilt 1 1 first }
    ensures value { IsReadAs (λ parts. parts) result (more_parts (MOST_PARTS - 1) objects first words.old) }
    ensures built { IfOk result (λ parts. AreBuilt 1 MOST_PARTS parts) }
{
    let mut parts = first;
    for _ in 1..MOST_PARTS {
        parts = read_joined_part(alloc, objects, parts, words)?;
    }
    words.end()?;
    Ok(parts)
}

/// These parts, and the one behind a `+`, if words are left.
#[tactic(auto, unfolding(crate::specs::Operation::joined_part), using(crate::proofs::PartFacts::wider_facts))]
fn read_joined_part(
    alloc: Global,
    objects: usize,
    parts: Parts,
    words: &mut Words<'_>,
) -> Result<Parts, LineFail>
    ensures value { IsReadAs (λ parts. (parts, words.new)) result (joined_part objects parts words.old) }
    ensures built { (most : ℕ) → AreBuilt 1 most parts → IfOk result (λ parts. AreBuilt 1 (most + 1) parts) }
{
    if words.is_empty() {
        return Ok(parts);
    }
    words.join()?;
    read_part_behind(alloc, objects, parts, words)
}

/// These parts, and one behind them: a verb, the object, and what the verb needs.
#[tactic(auto, unfolding(crate::specs::Operation::part_behind))]
fn read_part_behind(
    alloc: Global,
    objects: usize,
    parts: Parts,
    words: &mut Words<'_>,
) -> Result<Parts, LineFail>
    ensures value { IsReadAs (λ parts. (parts, words.new)) result (part_behind objects parts words.old) }
    ensures built { (least most : ℕ) → AreBuilt least most parts
        → IfOk result (λ parts. AreBuilt (least + 1) (most + 1) parts) }
{
    let (verb, object) = read_called(&parts, objects, words)?;
    let part = read_part(alloc, verb, words)?;
    Ok(parts.with(object, part)?)
}

/// A verb and an object behind these parts.
fn read_called(
    parts: &Parts,
    objects: usize,
    words: &mut Words<'_>,
) -> Result<(Verb, ObjectId), BadKind>
    ensures value { result_map_both (λ called. (called, words.new)) (λ kind. kind) result
        ≡ called_behind parts.now objects words.old }
    ensures known { IfOk result (λ called. called.1.0 < OBJECT_IDS) }
    ensures above { IfOk result (λ called. IsTrue (are_below called.1 parts.now)) }
{
    let verb = read_verb_behind(parts, words.next_of_part()?)?;
    let object = read_object_behind(parts, objects, words.next_of_part()?)?;
    Ok((verb, object))
}

/// A verb behind these parts.
fn read_verb_behind(parts: &Parts, word: &[u8]) -> Result<Verb, BadKind>
    ensures { result ≡ verb_behind parts.now word.now }
{
    let verb = read_verb(word)?;
    if parts.may_precede(verb) {
        Ok(verb)
    } else {
        Err(BadKind::OutOfOrder)
    }
}

/// One of so many objects, behind these parts.
fn read_object_behind(parts: &Parts, objects: usize, word: &[u8]) -> Result<ObjectId, BadKind>
    ensures value { result ≡ object_behind parts.now objects word.now }
    ensures known { IfOk result (λ object. object.0 < OBJECT_IDS) }
    ensures above { IfOk result (λ object. IsTrue (are_below object parts.now)) }
{
    let object = read_object(objects, word)?;
    if parts.are_below(object) {
        Ok(object)
    } else {
        Err(BadKind::OutOfOrder)
    }
}

/// A verb, of an update or of a query.
#[tactic(auto, unfolding(crate::specs::Operation::verb_rule))]
fn read_verb(word: &[u8]) -> Result<Verb, BadKind>
    ensures { result ≡ verb_rule word.now }
{
    if word == b"add".as_slice() {
        Ok(Verb::Add)
    } else if word == b"take".as_slice() {
        Ok(Verb::Take)
    } else if word == b"put".as_slice() {
        Ok(Verb::Put)
    } else if word == b"append".as_slice() {
        Ok(Verb::Append)
    } else if word == b"link".as_slice() {
        Ok(Verb::Link)
    } else if word == b"unlink".as_slice() {
        Ok(Verb::Unlink)
    } else {
        read_ask_verb(word)
    }
}

/// The verb of a query.
#[tactic(auto, unfolding(crate::specs::Operation::ask_verb_rule))]
fn read_ask_verb(word: &[u8]) -> Result<Verb, BadKind>
    ensures { result ≡ ask_verb_rule word.now }
{
    if word == b"read".as_slice() {
        Ok(Verb::Read)
    } else if word == b"cat".as_slice() {
        Ok(Verb::Cat)
    } else if word == b"find".as_slice() {
        Ok(Verb::Find)
    } else if word == b"list".as_slice() {
        Ok(Verb::All)
    } else {
        Err(BadKind::UnknownWord)
    }
}

/// What stands behind the object: `N`, `HEX`, `NAME`, `NAME N` or nothing, by the verb.
fn read_part(alloc: Global, verb: Verb, words: &mut Words<'_>) -> Result<Part, LineFail>
    ensures value { IsReadAs (λ part. (part, words.new)) result (part_rule verb words.old) }
    ensures sized { IfOk result (λ part. IsTrue (is_sized_part part)) }
{
    Ok(match verb {
        Verb::Add => Part::Does(Method::Add(number_behind(words)?)),
        Verb::Take => Part::Does(Method::Take(number_behind(words)?)),
        Verb::Put => Part::Does(Method::Put(content_behind(alloc, words)?)),
        Verb::Append => Part::Does(Method::Append(content_behind(alloc, words)?)),
        Verb::Link => {
            let name = name_behind(alloc, words)?;
            Part::Does(Method::Link(name, number_behind(words)?))
        }
        Verb::Unlink => Part::Does(Method::Unlink(name_behind(alloc, words)?)),
        Verb::Read => Part::Asks(Ask::Read),
        Verb::Cat => Part::Asks(Ask::Cat),
        Verb::Find => Part::Asks(Ask::Find(name_behind(alloc, words)?)),
        Verb::All => Part::Asks(Ask::All),
    })
}

/// The number that is the next word of a part.
fn number_behind(words: &mut Words<'_>) -> Result<u64, BadKind>
    ensures { result_map_both (λ number. (number, words.new)) (λ kind. kind) result ≡ argument number_rule words.old }
{
    read_number(words.next_of_part()?)
}

/// The bytes that are the next word of a part.
fn content_behind(alloc: Global, words: &mut Words<'_>) -> Result<List<u8>, LineFail>
    ensures value { IsReadAs (λ content. (content, words.new)) result (argument content_rule words.old) }
    ensures sized { IfOk result (λ content. IsTrue (nat_le (length content) CONTENT_LIMIT)) }
{
    read_content(alloc, words.next_of_part()?)
}

/// The name that is the next word of a part.
fn name_behind(alloc: Global, words: &mut Words<'_>) -> Result<List<u8>, LineFail>
    ensures value { IsReadAs (λ name. (name, words.new)) result (argument name_rule words.old) }
    ensures sized { IfOk result (λ name. IsTrue (nat_le (length name) NAME_LIMIT)) }
{
    read_name(alloc, words.next_of_part()?)
}
