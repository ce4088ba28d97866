// A value that stands apart, so that its owner stays small.
ghost use Rattle.std.specs.Prelude.{◌≡◌, IfOk};

use net_types::OutOfMemory;
use std::alloc::Global;
use std::marker::Model;

/// A value that stands apart from its owner, which stays small.
#[derive(Debug, Drop)]
pub struct Shelf<T> {
    item: Box<T>,
}

impl<T> Model for Shelf<T> {
    ghost Value = { T };

    ghost view = { λ s. s.item.value };
}

impl<T> Shelf<T> {
    /// The value.
    pub fn get(&self) -> &T
        ensures { result.now ≡ self.now }
    {
        &*self.item
    }
}

impl<T: Drop> Shelf<T> {
    /// Puts a value apart. The only error is want of memory, and then the value is dropped.
    pub fn new(alloc: Global, item: T) -> Result<Shelf<T>, OutOfMemory>
        ensures { IfOk result (λ shelf. shelf ≡ item) }
    {
        Ok(Shelf {
            item: Box::new(alloc, item)?,
        })
    }
}
