// Each law that is a function, called once with ample memory, and what it returns.

use nodejs_semver::{Version, laws};
use std::alloc::Global;

#[test]
fn laws_of_range_texts(rt: HostRuntime) {
    laws::grammar();
    laws::meaning();
    laws::printed_ranges_come_back(">1.2.3");
    laws::build_of_the_least();
    laws::one_flaw();
    laws::ignored_words_mean_nothing();
    npm_reading::laws::npm_reads_alike();
    assert!(rt; true);
}

// Whether the range of the text accepts the version, to both readings.
fn accept_both(alloc: Global, text: &str, version: &Version) -> bool {
    match npm_reading::laws::satisfied_alike(alloc, text, version) {
        Ok(both) => both == (true, true),
        Err(_) => false,
    }
}

#[test]
fn both_readings_accept_a_version(rt: HostRuntime) {
    assert!(rt; accept_both(rt.alloc(), "^1 || >2 <4", &Version::from((3u8, 5, 0))));
}
