ghost use Rattle.std.specs.Prelude.{◌≡◌, ◌++◌, OnOk};
ghost use Rattle.std.specs.List.{flat_map};
ghost use Rattle.qu_base.specs.Cursor.{Extends};
ghost use Rattle.qu_stamp.specs.Formats.{spelled_candidate};
ghost use Rattle.qu_history.specs.Formats.{candidates_form, history_form};

use super::History;
use qu_base::{NoMemory, Outbytes};
use qu_stamp::{Candidate, write_candidate};

impl History {
    /// Appends object, replica and candidates.
    #[tactic(auto, unfolding(crate::specs::Formats::history_form, crate::specs::Formats::candidates_form))]
    pub(super) fn append(&self, out: &mut Outbytes) -> Result<(), NoMemory>
        ensures ok { OnOk result (out.new ≡ out.old ++ history_form.spell self.now) }
        ensures more { Extends out.old out.new }
    {
        out.u16(self.object().0)?;
        out.u8(self.replica().0)?;
        out.u16(self.len() as u16)?;
        append_candidates(self.candidates().as_slice(), out)
    }
}

/// Appends the candidates one behind the other.
fn append_candidates(candidates: &[Candidate], out: &mut Outbytes) -> Result<(), NoMemory>
    ensures ok { OnOk result (out.new ≡ out.old ++ flat_map spelled_candidate candidates.now) }
    ensures more { Extends out.old out.new }
{
    for candidate in candidates {
        write_candidate(candidate, out)?;
    }
    Ok(())
}
