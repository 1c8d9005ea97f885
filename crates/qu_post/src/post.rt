use super::PostState;
use qu_base::{Bounds, NoMemory, Party};
use std::alloc::Global;
use std::sync::{Mutex, MutexGuard, Wait};

/// The post of a run, which its threads share. Of what stands under its lock a proof knows the type alone.
#[derive(Drop)]
pub struct Post {
    state: Mutex<PostState>,
}

impl Post {
    /// The post before the first step, where clients have the numbers from 1 to `clients`.
    pub fn new(
        alloc: Global,
        bounds: &Bounds,
        clients: u16,
        liars: &[Party],
    ) -> Result<Post, NoMemory> {
        let state = PostState::new(alloc, bounds, clients, liars)?;
        Ok(Post {
            state: Mutex::new(state),
        })
    }

    /// Waits for the lock.
    pub fn lock<R: Wait>(&self, rt: &R) -> MutexGuard<'_, PostState> {
        self.state.lock(rt)
    }

    /// What stood under the lock.
    pub fn into_inner(self) -> PostState {
        self.state.into_inner()
    }
}
