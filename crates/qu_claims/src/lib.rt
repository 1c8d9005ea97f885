//! What is claimed of a run: its premises, what is digested, what is decided and when, its points and their order, and
//! what stands behind each answer. The crate has no code and no lemma: its definitions are those that the clauses of
//! `qu` and of `order_of` cite, and the crates above show that they hold.
#![tactic(auto)]
