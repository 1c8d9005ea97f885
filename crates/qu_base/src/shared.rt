ghost use Rattle.std.specs.Prelude.{◌≡◌, IfOk};

use super::NoMemory;
use std::alloc::Global;
use std::marker::Model;
use std::sync::Arc;

/// An item that can stand in several places at once, so that none of it is copied.
#[derive(Debug, Drop)]
pub struct Shared<T> {
    item: Arc<T>,
}

impl<T> Model for Shared<T> {
    ghost use Rattle.std.specs.Arc.{arc_value};

    ghost Value = { T };

    ghost view = { λ shared. arc_value shared.item };
}

impl<T: Drop> Shared<T> {
    /// The item, to be shared.
    pub fn new(alloc: Global, item: T) -> Result<Shared<T>, NoMemory>
        ensures { IfOk result (λ shared. shared ≡ item) }
    {
        let item = Arc::new(alloc, item)?;
        Ok(Shared { item })
    }
}

impl<T> Shared<T> {
    /// The item, held once more.
    pub fn share(&self) -> Result<Shared<T>, NoMemory>
        ensures { IfOk result (λ shared. shared ≡ self.now) }
    {
        let item = Arc::try_clone(&self.item)?;
        Ok(Shared { item })
    }

    /// The item.
    pub fn get(&self) -> &T
        ensures { result.now ≡ self.now }
    {
        &self.item
    }
}
