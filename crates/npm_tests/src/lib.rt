//! The tests of the libraries `npm_words` and `npm_reading`.
#![tactic(auto)]

#[cfg(test)]
mod tests;
