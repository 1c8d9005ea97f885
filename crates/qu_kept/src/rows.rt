ghost use Rattle.std.specs.Prelude.{◌≡◌, ◌≤◌, ◌≢◌, ℕ, length, Some, IfOk};
ghost use Rattle.std.specs.Option.{option_copied};
ghost use Rattle.qu_base.specs.declared.party.ClientId.{ClientId as Client};
ghost use Rattle.qu_kept.specs.Rows.{row_of, with_row, AreRising, IsOfClients, AreOfClients};

use qu_base::{ClientId, List, NoMemory};
use qu_objects::KeptRow;
use std::alloc::Global;

/// What is kept of a client, if anything.
pub fn row_of(rows: &[KeptRow], client: ClientId) -> Option<&KeptRow>
    ensures { option_copied result ≡ row_of client rows.now }
{
    rows.iter().find(|row| row.client == client)
}

/// The rows with this one in place of its client's, or added to the others. They rise by clients if they did
/// so before, and are then never more than there are clients.
pub fn with_row(alloc: Global, rows: &[KeptRow], row: KeptRow) -> Result<List<KeptRow>, NoMemory>
    ensures value { IfOk result (λ new. new ≡ with_row row rows.now) }
    ensures own { IfOk result (λ new. row_of row.client new ≡ Some row) }
    ensures others { (other : Client) → other.0 ≢ (row.client).0
        → IfOk result (λ new. row_of other new ≡ row_of other rows.now) }
    ensures rising { AreRising rows.now → IfOk result AreRising }
    ensures room { (clients : ℕ) → AreRising rows.now → AreOfClients clients rows.now → IsOfClients clients row
        → IfOk result (λ new. AreOfClients clients new × (length new ≤ clients)) }
{
    replaced(alloc, rows, row)
}

/// The rows with this one in the place of its client's.
fn replaced(alloc: Global, rows: &[KeptRow], row: KeptRow) -> Result<List<KeptRow>, NoMemory>
    ensures { IfOk result (λ new. new ≡ with_row row rows.now) }
{
    let client = row.client;
    let mut new = List::new(alloc);
    for lower in rows {
        if lower.client.0 < client.0 {
            new.push(lower.copy(alloc)?)?;
        }
    }
    new.push(row)?;
    for higher in rows {
        if client.0 < higher.client.0 {
            new.push(higher.copy(alloc)?)?;
        }
    }
    Ok(new)
}
