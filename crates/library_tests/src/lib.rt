//! The tests of the library `nodejs_semver`.
#![tactic(auto)]

#[cfg(test)]
mod tests;
