//! Large values on the heap.

ghost use Rattle.std.specs.Prelude.{◌≡◌, IfOk};

use crate::line::OutOfMemory;
use std::alloc::Global;
use std::marker::Model;

/// A value on the heap, so that what holds it stays small. A contract sees the value itself.
#[derive(Drop)]
pub struct Boxed<T> {
    held: Box<T>,
}

impl<T> Model for Boxed<T> {
    ghost Value = { T };

    ghost coded = { T.code };

    ghost view = { λ b. b.held.value };
}

impl<T: Drop> Boxed<T> {
    /// Puts a value on the heap. `OutOfMemory` comes where there is no room for it.
    pub fn new(alloc: Global, value: T) -> Result<Boxed<T>, OutOfMemory>
        ensures { IfOk result (λ boxed. boxed ≡ value) }
    {
        match Box::new(alloc, value) {
            Ok(held) => Ok(Boxed { held }),
            Err(_) => Err(OutOfMemory),
        }
    }
}

impl<T> Boxed<T> {
    /// The value.
    #[inline(always)]
    pub fn get(&self) -> &T
        ensures { result.now ≡ self.now }
    {
        &*self.held
    }

    /// The value, to be changed.
    #[inline(always)]
    pub fn get_mut(&mut self) -> &mut T
        ensures now { result.now ≡ self.old }
    {
        &mut *self.held
    }

    /// Takes the value off the heap.
    #[inline(always)]
    pub fn into_inner(self) -> T
        ensures { result ≡ self }
    {
        Box::into_inner(self.held)
    }
}
