ghost use Rattle.std.specs.Prelude.{OnOk, OnErr};
ghost use Rattle.qu_io.specs.Streams.{IsCalm};
ghost use Rattle.qu_io.specs.Transfer.{Writes, WritesShort, WritesOrFails};

use crate::failed::Failed;
use crate::sink::Sink;

/// Writes a text. Each call offers all that is left of it.
pub fn write_text<K: Sink>(output: &mut K, text: &[u8]) -> Result<(), Failed>
    ensures whole { OnOk result (Writes (K.known output.old) (K.known output.new) text.now) }
    ensures calm { OnOk result (IsCalm (K.known output.old) (K.known output.new)) }
    ensures short { OnErr result (WritesShort (K.known output.old) (K.known output.new) text.now) }
{
    let mut at = 0;
    while at < text.len() {
        at += output.write(&text[at..])?;
    }
    Ok(())
}

/// Writes a text as far as the sink takes it.
pub fn tell_text<K: Sink>(output: &mut K, text: &[u8])
    ensures { WritesOrFails (K.known output.old) (K.known output.new) text.now }
{
    match write_text(output, text) {
        Ok(()) | Err(_) => {}
    }
}
