//! Four uses of `nodejs_semver`, each a module whose contracts say what its user wants: a resolver,
//! a release tool, the index of a registry, and a test whether one range accepts all that another
//! accepts.
#![tactic(auto)]

pub mod index;
pub mod release;
pub mod resolver;
pub mod subset;
