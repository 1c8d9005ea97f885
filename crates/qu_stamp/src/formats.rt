ghost use Rattle.std.specs.Prelude.{Bool};
ghost use Rattle.qu_base.specs.declared.party.ObjectId.{ObjectId};
ghost use Rattle.qu_base.specs.Format.{IsPrefixCode};
ghost use Rattle.qu_stamp.specs.declared.stamp.Stamp.{Stamp};
ghost use Rattle.qu_stamp.specs.Formats.{stamp_with, group_form, candidate_form};

/// By each format of this crate, what is read is spelled so, what is spelled so is read, and no
/// spelling begins another.
#[tactic(auto, using(crate::proofs::Forms::code_laws))]
pub fn formats_are_codes()
    ensures stamp { (barrier_may_be : Bool) → IsPrefixCode (stamp_with barrier_may_be) }
    ensures group { (object : ObjectId) (stamp : Stamp) → IsPrefixCode (group_form object stamp) }
    ensures candidate { (object : ObjectId) → IsPrefixCode (candidate_form object) }
{}
