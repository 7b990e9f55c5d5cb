//! Why a call has no value, and want of memory.

use std::alloc::{AllocError, AllocFailed};

/// An allocation failed. Every call that allocates may answer this, and it says nothing else.
#[derive(Clone, Copy, Debug)]
pub struct NoMemory;

impl From<AllocError> for NoMemory {
    fn from(_: AllocError) -> Self {
        NoMemory
    }
}

impl<T: Drop> From<AllocFailed<T>> for NoMemory {
    fn from(_: AllocFailed<T>) -> Self {
        NoMemory
    }
}

/// Why a call has no value: what it was asked for is refused, for this reason, or memory was wanting, which says
/// nothing of it.
#[derive(Clone, Copy)]
pub enum Stop<E> {
    Refused(E),
    NoMemory,
}

impl<E> From<NoMemory> for Stop<E> {
    ghost use Rattle.std.specs.Prelude.{◌≡◌};
    ghost use Rattle.sift_base.specs.declared.stop.Stop.TheVariants as stop;

    ghost from_gives = { λ _ came. came ≡ stop.NoMemory };

    fn from(_: NoMemory) -> Self {
        Stop::NoMemory
    }
}

impl<E> From<AllocError> for Stop<E> {
    ghost use Rattle.std.specs.Prelude.{◌≡◌};
    ghost use Rattle.sift_base.specs.declared.stop.Stop.TheVariants as stop;

    ghost from_gives = { λ _ came. came ≡ stop.NoMemory };

    fn from(_: AllocError) -> Self {
        Stop::NoMemory
    }
}

impl<E, T: Drop> From<AllocFailed<T>> for Stop<E> {
    ghost use Rattle.std.specs.Prelude.{◌≡◌};
    ghost use Rattle.sift_base.specs.declared.stop.Stop.TheVariants as stop;

    ghost from_gives = { λ _ came. came ≡ stop.NoMemory };

    fn from(_: AllocFailed<T>) -> Self {
        Stop::NoMemory
    }
}
