// What a call returned with ample memory.

use nodejs_semver::Failure;
use std::alloc::AllocError;
use std::fmt;

/// How many calls were made.
#[derive(Drop)]
pub struct Calls(u64);

impl Calls {
    pub fn new() -> Calls {
        Calls(0)
    }

    /// Counts a call, and returns what it returned.
    pub fn made<T>(&mut self, returned: T) -> T {
        self.0 = self.0.saturating_add(1);
        returned
    }

    /// Counts a call, and drops its value. An allocation failure is an error.
    pub fn asked<T: Drop>(&mut self, returned: Result<T, AllocError>) -> Result<(), AllocError> {
        self.made(returned)?;
        Ok(())
    }

    /// Counts a call that may find nothing, and drops what it found. An allocation failure is an
    /// error.
    pub fn found<T: Drop>(
        &mut self,
        returned: Result<Option<T>, AllocError>,
    ) -> Result<(), AllocError> {
        self.made(returned)?;
        Ok(())
    }

    /// Counts a call that may find two values, and drops what it found. An allocation failure is an
    /// error.
    pub fn found_two<T: Drop>(
        &mut self,
        returned: Result<(Option<T>, Option<T>), AllocError>,
    ) -> Result<(), AllocError> {
        let (_, _) = self.made(returned)?;
        Ok(())
    }

    /// Counts a call that may reject its input, and drops its answer. An allocation failure is an
    /// error.
    pub fn tried<T: Drop, E: Drop>(
        &mut self,
        returned: Result<T, Failure<E>>,
    ) -> Result<(), AllocError> {
        self.answered(returned)?;
        Ok(())
    }

    /// Counts a call that may reject its input, and returns its value, if there is one. An
    /// allocation failure is an error.
    pub fn answered<T, E: Drop>(
        &mut self,
        returned: Result<T, Failure<E>>,
    ) -> Result<Option<T>, AllocError> {
        match self.made(returned) {
            Ok(value) => Ok(Some(value)),
            Err(Failure::Refused(_)) => Ok(None),
            Err(Failure::Memory(error)) => Err(error),
        }
    }

    /// Counts a call that may reject its input, and returns why it did, if it did. An allocation
    /// failure is an error.
    pub fn rejected<T: Drop, E>(
        &mut self,
        returned: Result<T, Failure<E>>,
    ) -> Result<Option<E>, AllocError> {
        match self.made(returned) {
            Ok(_) => Ok(None),
            Err(Failure::Refused(error)) => Ok(Some(error)),
            Err(Failure::Memory(error)) => Err(error),
        }
    }
}

impl fmt::Display for Calls {
    fn fmt<W: fmt::Write>(&self, f: &mut fmt::Formatter<W>) -> fmt::Result {
        let calls = self.0;
        write!(f, "{calls} calls")
    }
}
