use qu_base::ReplicaId;

/// The answer of a replica.
#[derive(Clone, Drop)]
pub struct Vote<T> {
    pub replica: ReplicaId,
    pub value: T,
}
