ghost use Rattle.std.specs.Prelude.{◌≡◌};
ghost use Rattle.size_values.specs.declared.memory.Or.TheVariants as or;

use std::alloc::{AllocError, AllocFailed};

/// Out of memory. It is the one answer that any call which takes memory may give at any time.
#[derive(Clone, Copy, PartialEq, Eq)]
pub struct NoMemory;

/// A reason to refuse, or out of memory in place of it.
#[derive(Drop, PartialEq, Eq)]
pub enum Or<E> {
    NoMemory,
    Why(E),
}

impl From<AllocError> for NoMemory {
    fn from(_: AllocError) -> Self {
        NoMemory
    }
}

impl<T: Drop> From<AllocFailed<T>> for NoMemory {
    fn from(_: AllocFailed<T>) -> Self {
        NoMemory
    }
}

impl<E> From<NoMemory> for Or<E> {
    ghost from_gives = { λ _ e. e ≡ or.NoMemory };

    fn from(_: NoMemory) -> Self {
        Or::NoMemory
    }
}

impl<E> From<AllocError> for Or<E> {
    ghost from_gives = { λ _ e. e ≡ or.NoMemory };

    fn from(_: AllocError) -> Self {
        Or::NoMemory
    }
}

impl<E, T: Drop> From<AllocFailed<T>> for Or<E> {
    ghost from_gives = { λ _ e. e ≡ or.NoMemory };

    fn from(_: AllocFailed<T>) -> Self {
        Or::NoMemory
    }
}
