ghost use Rattle.std.specs.Prelude.{◌≡◌, IfOk, Ok};

use crate::memory::NoMemory;
use std::alloc::Global;
use std::marker::Model;
use std::ops::Deref;

/// A value in memory of its own: a list of such values moves a pointer for each. Contracts see it as the value.
#[derive(Drop)]
pub struct Boxed<T> {
    inner: Box<T>,
}

impl<T> Model for Boxed<T> {
    ghost Value = { T };

    ghost view = { λ b. b.inner.value };
}

impl<T: Drop> Boxed<T> {
    /// The value in memory of its own.
    pub fn new(alloc: Global, value: T) -> Result<Boxed<T>, NoMemory>
        ensures { IfOk result (λ b. b ≡ value) }
    {
        match Box::new(alloc, value) {
            Ok(inner) => Ok(Boxed { inner }),
            Err(_) => Err(NoMemory),
        }
    }

    /// What was made, in memory of its own.
    pub fn of(alloc: Global, made: Result<T, NoMemory>) -> Result<Boxed<T>, NoMemory>
        ensures { IfOk result (λ b. made ≡ Ok b) }
    {
        Boxed::new(alloc, made?)
    }
}

impl<T> Boxed<T> {
    /// The value, taken out.
    pub fn into_inner(self) -> T
        ensures { result ≡ self }
    {
        Box::into_inner(self.inner)
    }
}

impl<T> Deref for Boxed<T> {
    type Target = T;

    ghost deref_gives = { λ b value. value ≡ b };

    fn deref(&self) -> &T
        ensures { result.now ≡ self.now }
    {
        &self.inner
    }
}
