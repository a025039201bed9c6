// What is told on a terminal where nothing is printed.

ghost use Rattle.std.specs.Prelude.{◌≡◌, IfOk};
ghost use Rattle.npm_semver.specs.Internal.Commands.{outcome};
ghost use Rattle.npm_semver.specs.Outcomes.{with_hint};

use crate::command::Outcome;
use std::alloc::{AllocError, Global};

const HINT: &str = "semver: no version is printed; --why tells why\n";

impl Outcome {
    /// The outcome, with a line that names `--why` if that is wanted and nothing is written. Fails
    /// only if allocation fails.
    pub fn with_hint(self, alloc: Global, is_wanted: bool) -> Result<Outcome, AllocError>
        ensures { IfOk result (λ o. outcome o ≡ with_hint is_wanted (outcome self)) }
    {
        if !is_wanted || !self.output.is_empty() || !self.errors.is_empty() {
            return Ok(self);
        }
        let errors = String::from_str(alloc, HINT)?;
        Ok(Outcome { errors, ..self })
    }
}
