ghost use Rattle.std.specs.Prelude.{List};
ghost use Rattle.qu_base.specs.declared.party.ObjectId.{ObjectId as Object};
ghost use Rattle.qu_base.specs.Format.{IsPrefixCode};
ghost use Rattle.qu_frames.specs.Formats.{body_form, culled_form, request_frame, reply_frame, fetch_frame, fetched_frame, frame_form};
ghost use Rattle.qu_verdicts.specs.Formats.{refusal_form, stamps_form, verdict_form};

/// By each format of this crate, what is read is spelled so, what is spelled so is read, and no
/// spelling begins another.
#[tactic(auto, using(crate::proofs::Forms::code_laws))]
pub fn formats_are_codes()
    ensures body { (objects : List Object) → IsPrefixCode (body_form objects) }
    ensures culled { IsPrefixCode culled_form }
    ensures request { IsPrefixCode request_frame }
    ensures reply { IsPrefixCode reply_frame }
    ensures fetch { IsPrefixCode fetch_frame }
    ensures fetched { IsPrefixCode fetched_frame }
    ensures frame { IsPrefixCode frame_form }
{}
