ghost use Rattle.std.specs.Prelude.{◌≡◌, IfOk};
ghost use Rattle.qu_objects.specs.Digesting.{act_text, act_digest};

use super::{Act, write_act};
use qu_base::{ClientId, Digest, List, NoMemory, Outbytes};
use qu_seal::{ACT_TAG, digest};
use std::alloc::Global;

/// The digest of an act of this client, which is its operation with this number, counted from 1.
#[tactic(auto, unfolding(crate::specs::Digesting::act_digest))]
pub fn act_digest(
    alloc: Global,
    client: ClientId,
    number: u64,
    act: &Act,
) -> Result<Digest, NoMemory>
    ensures { IfOk result (λ digest. digest ≡ act_digest client number act.now) }
{
    let text = act_text(alloc, client, number, act)?;
    Ok(digest(ACT_TAG, text.as_slice()))
}

/// The text of the act that is digested.
#[tactic(auto, unfolding(crate::specs::Digesting::act_text, crate::specs::Digesting::act_text_form))]
pub fn act_text(
    alloc: Global,
    client: ClientId,
    number: u64,
    act: &Act,
) -> Result<List<u8>, NoMemory>
    ensures { IfOk result (λ text. text ≡ act_text client number act.now) }
{
    let mut text = Outbytes::new(alloc);
    text.u16(client.0)?;
    text.u64(number)?;
    write_act(act, &mut text)?;
    Ok(text.done())
}
