//! The tests of the libraries `semver_answers` and `uses`, and examples of the pages that call the
//! libraries.
#![tactic(auto)]

#[cfg(test)]
mod tests;
