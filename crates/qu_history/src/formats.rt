ghost use Rattle.qu_base.specs.declared.party.ReplicaId.{ReplicaId};
ghost use Rattle.qu_base.specs.Format.{IsPrefixCode};
ghost use Rattle.qu_history.specs.Formats.{history_form, sealed_form, sets_form, shown_form, sets_text_form};

/// By each format of this crate, what is read is spelled so, what is spelled so is read, and no
/// spelling begins another.
#[tactic(auto, using(crate::proofs::Forms::code_laws))]
pub fn formats_are_codes()
    ensures history { IsPrefixCode history_form }
    ensures sealed { IsPrefixCode sealed_form }
    ensures sets { IsPrefixCode sets_form }
    ensures shown { (replica : ReplicaId) → IsPrefixCode (shown_form replica) }
    ensures text { IsPrefixCode sets_text_form }
{}
