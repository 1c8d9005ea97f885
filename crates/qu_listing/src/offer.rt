//! Bytes that reach a party.
use qu_base::Party;
use std::marker::Model;

/// The bytes that a party is offered at an event.
#[derive(Drop)]
pub struct Offer<'e> {
    pub to: Party,
    pub text: &'e [u8],
}

impl<'e> Model for Offer<'e> {
    ghost use Rattle.std.specs.Prelude.{List, ℕ};
    ghost use Rattle.qu_base.specs.declared.party.Party.{Party as AParty};

    ghost Value = { AParty × List ℕ };

    ghost view = { λ offer. (offer.to, offer.text.now) };
}
