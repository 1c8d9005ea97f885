ghost use Rattle.std.specs.Prelude.{◌≡◌, ◌≤◌, ◌<◌, ◌++◌, ℕ, length, IfOk, OnOk, string_bytes, codes};
ghost use Rattle.qu_gen.specs.Operation.{called};
ghost use Rattle.qu_gen.specs.Script.{generated_script, generated_lines, numbers_of_setup, objects_and_liar, generated_setup, client_line, flowing, course, lie_behind, lines_at, lines_of_first, ended};

use super::operation::{OBJECTS, OPERATIONS, Operation};
use qu_base::{ClientId, List, NoMemory};
use std::alloc::Global;

/// The script of a number. The error is want of memory.
#[tactic(auto, using(crate::proofs::LineFacts::script_parts))]
pub fn gen_script(alloc: Global, number: u64) -> Result<List<u8>, NoMemory>
    ensures { IfOk result (λ text. text ≡ generated_script number) }
{
    let mut text = String::new(alloc);
    put_setup(&mut text, number)?;
    put_operations(&mut text, number, OPERATIONS)?;
    Ok(List::from(text.into_bytes()))
}

/// Each script has so many lines.
#[tactic(auto, using(crate::proofs::CountFacts::lines_counted))]
pub fn lines_are_counted()
    ensures { (number : ℕ) → length (generated_lines number) ≡ 3252 }
{}

/// Writes who takes part.
#[tactic(auto, unfolding(crate::specs::Script::ended, crate::specs::Script::generated_setup))]
fn put_setup(text: &mut String, number: u64) -> Result<(), NoMemory>
    ensures { OnOk result (string_bytes text.new ≡ string_bytes text.old ++ ended (generated_setup number)) }
{
    put_numbers(text, number)?;
    put_objects_and_liar(text)
}

/// Writes how many replicas may lie, from which number keys are drawn, and how many clients there are.
fn put_numbers(text: &mut String, number: u64) -> Result<(), NoMemory>
    ensures { OnOk result (string_bytes text.new ≡ string_bytes text.old ++ ended (numbers_of_setup number)) }
{
    write!(text, "bounds 1\nseed {number}\nclients 4\n")?;
    Ok(())
}

/// Writes which objects there are, and which replica is faulty.
fn put_objects_and_liar(text: &mut String) -> Result<(), NoMemory>
    ensures { OnOk result (string_bytes text.new ≡ string_bytes text.old ++ ended objects_and_liar) }
{
    text.push_str("object 0 counter\nobject 1 counter\nobject 2 counter\n")?;
    text.push_str("object 3 counter\nobject 4 counter\nobject 5 counter\n")?;
    text.push_str("object 6 blob\nobject 7 dir\nfaulty replica 5\n")?;
    Ok(())
}

/// Writes the lines of the first operations, so many.
#[tactic(auto, unfolding(crate::specs::Script::ended, crate::specs::Script::lines_of_first))]
fn put_operations(text: &mut String, number: u64, count: u16) -> Result<(), NoMemory>
    requires { count ≤ OPERATIONS }
    ensures { OnOk result (string_bytes text.new ≡ string_bytes text.old ++ ended (lines_of_first count number)) }
{
    for earlier in 0..count {
        put_operation(text, number, earlier + 1)?;
    }
    Ok(())
}

/// Writes the lines of the operation at a place.
#[tactic(auto, unfolding(crate::specs::Script::ended, crate::specs::Script::lines_at))]
fn put_operation(text: &mut String, number: u64, place: u16) -> Result<(), NoMemory>
    requires first { 1 ≤ place }
    requires last { place ≤ OPERATIONS }
    ensures { OnOk result (string_bytes text.new ≡ string_bytes text.old ++ ended (lines_at number place)) }
{
    let operation = Operation::at(number, place);
    put_course(text, &operation)?;
    put_lie(text, place, operation.client)
}

/// Writes the call of an operation, and the lines in which it comes to its end.
#[tactic(auto, unfolding(crate::specs::Script::ended, crate::specs::Script::course))]
fn put_course(text: &mut String, operation: &Operation) -> Result<(), NoMemory>
    requires { operation.now.object.0 < OBJECTS }
    ensures { OnOk result (string_bytes text.new
        ≡ string_bytes text.old ++ ended (course operation.now.client.0 (called operation.now))) }
{
    let client = operation.client.0;
    put_call(text, operation)?;
    put_flowing(text, "tick", client)?;
    put_flowing(text, "wake", client)?;
    put_flowing(text, "tick", client)
}

/// Writes that a client is called, and a flow.
#[tactic(auto, unfolding(crate::specs::Script::ended, crate::specs::Script::flowing))]
fn put_call(text: &mut String, operation: &Operation) -> Result<(), NoMemory>
    requires { operation.now.object.0 < OBJECTS }
    ensures { OnOk result (string_bytes text.new
        ≡ string_bytes text.old
        ++ ended (flowing (client_line (codes "call") operation.now.client.0 ++ codes " " ++ called operation.now))) }
{
    let client = operation.client.0;
    write!(text, "call {client} ")?;
    operation.put(text)?;
    text.push_str("\nflow\n")?;
    Ok(())
}

/// Writes what a client does, and a flow.
#[tactic(auto, unfolding(crate::specs::Script::ended, crate::specs::Script::flowing))]
fn put_flowing(text: &mut String, verb: &str, client: u16) -> Result<(), NoMemory>
    ensures { OnOk result (string_bytes text.new
        ≡ string_bytes text.old ++ ended (flowing (client_line verb.now client))) }
{
    write!(text, "{verb} {client}\nflow\n")?;
    Ok(())
}

/// Writes the line of the faulty replica behind each tenth operation.
#[tactic(auto, unfolding(crate::specs::Script::ended, crate::specs::Script::lie_behind))]
fn put_lie(text: &mut String, place: u16, client: ClientId) -> Result<(), NoMemory>
    ensures { OnOk result (string_bytes text.new ≡ string_bytes text.old ++ ended (lie_behind place client.0)) }
{
    if place % 10 == 0 {
        let client = client.0;
        writeln!(text, "fake 5 {client} far")?;
    }
    Ok(())
}
