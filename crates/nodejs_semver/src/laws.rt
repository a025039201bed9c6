//! Laws of the words that contracts speak in. Each is the contract of a function that does nothing,
//! or hardly anything, else; no caller needs this module.

mod diagnosis;
pub mod headline;
mod least;
mod outside;
mod printing;
mod program;
mod texts;

pub use crate::laws::diagnosis::{ignored_words_mean_nothing, one_flaw};
pub use crate::laws::least::build_of_the_least;
pub use crate::laws::outside::outside_by_cuts;
pub use crate::laws::printing::{printed_in_field, printed_ranges_come_back, reread_range};
pub use crate::laws::program::{headline_of_texts, membership};
pub use crate::laws::texts::{both_readers, grammar, meaning};
