// The errors of the crate.

ghost use Rattle.std.specs.Prelude.{◌≡◌};
ghost use Rattle.semver_core.specs.Words.{AllocError, Memory, Refused};

use std::alloc::AllocError;
use thiserror::Error;

/// The text is not a version, or not a range. The error holds nothing of the text.
#[derive(Clone, Copy, PartialEq, Eq, Debug, Error)]
#[error("Invalid semantic version or range")]
pub struct SemverError;

/// A number is negative, which no number of a version is.
#[derive(Clone, Copy, PartialEq, Eq, Debug, Error)]
#[error("a number is negative")]
pub struct NegativeNumber;

/// The error of a call that may reject its input and that allocates.
#[derive(Debug, Drop)]
pub enum Failure<E> {
    /// The input was rejected, for this reason.
    Refused(E),
    /// An allocation failed. The call may succeed when there is more memory.
    Memory(AllocError),
}

impl<E: Drop> Failure<E> {
    /// The value of an answer, and `None` where the input was rejected. An allocation failure stays
    /// an error, which `?` passes on.
    ///
    /// ```rust
    /// let range = Failure::refused_as_none(Range::parse(alloc, "next"))?;
    /// assert!(rt; range.is_none());
    /// ```
    pub fn refused_as_none<T>(answer: Result<T, Failure<E>>) -> Result<Option<T>, AllocError>
        ensures value { (value : T) → answer ≡ Ok value → result ≡ Ok (Some value) }
        ensures refused { (reason : E) → answer ≡ Err (Refused reason) → result ≡ Ok None }
        ensures memory { (error : AllocError) → answer ≡ Err (Memory error) → result ≡ Err error }
    {
        match answer {
            Ok(value) => Ok(Some(value)),
            Err(Failure::Refused(_)) => Ok(None),
            Err(Failure::Memory(error)) => Err(error),
        }
    }
}

/// `Memory`, so that `?` passes an allocation failure on.
impl<E> From<AllocError> for Failure<E> {
    ghost from_gives = { λ error failure. failure ≡ Memory error };

    fn from(error: AllocError) -> Failure<E> {
        Failure::Memory(error)
    }
}

/// `Refused`, so that `?` passes the error of a borrowed reading on.
impl From<SemverError> for Failure<SemverError> {
    ghost from_gives = { λ error failure. failure ≡ Refused error };

    fn from(error: SemverError) -> Failure<SemverError> {
        Failure::Refused(error)
    }
}
