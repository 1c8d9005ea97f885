use qu_base::Party;

/// What the threads of a run pass at two places of each step. It tells nothing, and does nothing to a run but wait.
pub trait Gate: Sync {
    /// Passes the gate in a step of this actor: place 1 before the step's ticket is drawn, with the actor's lock held,
    /// and place 2 after the step is kept.
    fn pass(&self, actor: Party, place: u8);
}

/// A gate at which nobody waits.
#[derive(Clone, Copy)]
pub struct OpenGate;

impl Gate for OpenGate {
    fn pass(&self, _actor: Party, _place: u8) {}
}
