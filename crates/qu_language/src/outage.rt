ghost use Rattle.qu_script_words.specs.Meaning.{IsReadAs};
ghost use Rattle.qu_language.specs.Event.{outage_rule};

use super::Line;
use qu_script_words::{BadKind, LineFail, Words, read_replicas};
use qu_trace::Setup;
use std::alloc::Global;

/// `hold R R ..`, `free R R ..` or `lose`.
#[tactic(auto, unfolding(crate::specs::Event::outage_rule))]
pub fn read_outage(
    alloc: Global,
    setup: &Setup,
    verb: &[u8],
    words: &mut Words<'_>,
) -> Result<Line, LineFail>
    ensures { IsReadAs (λ line. line) result (outage_rule setup.now verb.now words.old) }
{
    if verb == b"hold".as_slice() {
        Ok(Line::Hold(read_replicas(alloc, &setup.bounds, words)?))
    } else if verb == b"free".as_slice() {
        Ok(Line::Free(read_replicas(alloc, &setup.bounds, words)?))
    } else if verb == b"lose".as_slice() {
        words.end()?;
        Ok(Line::Lose)
    } else {
        Err(LineFail::Bad(BadKind::UnknownWord))
    }
}
