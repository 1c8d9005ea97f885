ghost use Rattle.std.specs.Prelude.{◌≡◌, ◌++◌, OnOk, string_bytes};
ghost use Rattle.qu_listed.specs.Names.{party_text, object_text, count_text};

use qu_base::{ClientId, NoMemory, ObjectId, Party, ReplicaId};

#[tactic(auto, unfolding(qu_listed::specs::Names::party_text))]
pub fn put_party(text: &mut String, party: Party) -> Result<(), NoMemory>
    ensures { OnOk result (string_bytes text.new ≡ string_bytes text.old ++ party_text party) }
{
    match party {
        Party::Replica(ReplicaId(number)) => write!(text, "replica {number}")?,
        Party::Client(ClientId(number)) => write!(text, "client {number}")?,
    }
    Ok(())
}

#[tactic(auto, unfolding(qu_listed::specs::Names::object_text))]
pub fn put_object(text: &mut String, object: ObjectId) -> Result<(), NoMemory>
    ensures { OnOk result (string_bytes text.new ≡ string_bytes text.old ++ object_text object) }
{
    let number = object.0;
    write!(text, "object {number}")?;
    Ok(())
}

/// Writes a count of what this word says of one.
#[tactic(auto, unfolding(qu_listed::specs::Names::count_text))]
pub fn put_count(text: &mut String, count: usize, word: &str) -> Result<(), NoMemory>
    ensures { OnOk result (string_bytes text.new ≡ string_bytes text.old ++ count_text count word.now) }
{
    write!(text, "{count} {word}")?;
    if count != 1 {
        text.push_str("s")?;
    }
    Ok(())
}
