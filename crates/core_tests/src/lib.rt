//! The tests of the library `semver_core`.
#![tactic(auto)]

#[cfg(test)]
mod tests;
