ghost use Rattle.qu_base.specs.Format.{IsPrefixCode};
ghost use Rattle.qu_verdicts.specs.Formats.{refusal_form, stamps_form, verdict_form};

/// By each format of this crate, what is read is spelled so, what is spelled so is read, and no
/// spelling begins another.
#[tactic(auto, using(crate::proofs::VerdictForms::code_laws))]
pub fn formats_are_codes()
    ensures refusal { IsPrefixCode refusal_form }
    ensures stamps { IsPrefixCode stamps_form }
    ensures verdict { IsPrefixCode verdict_form }
{}
