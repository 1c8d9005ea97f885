//! The operations that have no end.
ghost use Rattle.std.specs.Prelude.{◌≡◌, ◌++◌, OnOk, string_bytes};
ghost use Rattle.qu_print.specs.Lines.{lines_text};
ghost use Rattle.qu_print.specs.Ends.{open_lines, open_lines_of, never_ended};

use qu_base::NoMemory;
use qu_machine::OpRecord;

/// Writes a line for each operation of clients 1, 2, .. up to this one that has no end.
#[tactic(auto, unfolding(crate::specs::Lines::lines_text, crate::specs::Ends::open_lines))]
pub(crate) fn put_open(
    text: &mut String,
    clients: u16,
    operations: &[OpRecord],
) -> Result<(), NoMemory>
    ensures { OnOk result (string_bytes text.new
        ≡ string_bytes text.old ++ lines_text (open_lines clients operations.now)) }
{
    for earlier in 0..clients {
        put_open_of(text, earlier + 1, operations)?;
    }
    Ok(())
}

#[tactic(auto, unfolding(crate::specs::Lines::lines_text, crate::specs::Ends::open_lines_of))]
fn put_open_of(text: &mut String, client: u16, operations: &[OpRecord]) -> Result<(), NoMemory>
    ensures { OnOk result (string_bytes text.new
        ≡ string_bytes text.old ++ lines_text (open_lines_of operations.now client)) }
{
    for operation in operations {
        if operation.client.0 == client && is_open(operation) {
            let number = operation.number;
            writeln!(text, "open {client}.{number}")?;
        }
    }
    Ok(())
}

fn is_open(operation: &OpRecord) -> bool
    ensures { result ≡ never_ended operation.now }
{
    operation.reply.is_none()
}
