ghost use Rattle.std.specs.Prelude.{Bool};
ghost use Rattle.qu_base.specs.declared.party.ObjectId.{ObjectId};
ghost use Rattle.qu_base.specs.Format.{IsPrefixCode};
ghost use Rattle.qu_objects.specs.Formats.{method_form, ask_form, item_form, act_form, query_form, answer_form};
ghost use Rattle.qu_objects.specs.Digesting.{act_text_form};
ghost use Rattle.qu_objects.specs.States.{state_form};

/// By each format of this crate, what is read is spelled so, what is spelled so is read, and no
/// spelling begins another.
#[tactic(auto, using(crate::proofs::ReadingLaws::code_laws))]
pub fn formats_are_codes()
    ensures method { IsPrefixCode method_form }
    ensures ask { IsPrefixCode ask_form }
    ensures item { IsPrefixCode item_form }
    ensures act { (known : ObjectId → Bool) → IsPrefixCode (act_form known) }
    ensures query { (known : ObjectId → Bool) → IsPrefixCode (query_form known) }
    ensures answer { IsPrefixCode answer_form }
    ensures text { IsPrefixCode act_text_form }
    ensures state { IsPrefixCode state_form }
{}
