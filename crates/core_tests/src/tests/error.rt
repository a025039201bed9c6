// The messages of errors.

use super::prints;
use semver_core::{Failure, IncrementError, NegativeNumber, SemverError, Version};
use std::alloc::Global;

#[test]
fn errors_of_versions_have_messages(rt: HostRuntime) {
    assert!(rt;
        prints(
            rt.alloc(),
            &SemverError,
            "Invalid semantic version or range"
        )
    );
    assert!(rt; prints(rt.alloc(), &NegativeNumber, "a number is negative"));
}

// A word and an identifier with which 1.2.3 is not incremented, and the message.
const INCREMENT_ERRORS: &[(&str, &str, &str)] = &[
    ("prefix", "a/b", "invalid identifier: a/b"),
    ("fake", "", "invalid increment argument: fake"),
    ("release", "", "version 1.2.3 is not a prerelease"),
];

fn refuses(alloc: Global, version: &Version, word: &str, identifier: &str, wanted: &str) -> bool {
    match version.inc(alloc, word, Some(identifier), None) {
        Err(Failure::Refused(error)) => prints(alloc, &error, wanted),
        _ => false,
    }
}

fn is_refused_with(alloc: Global, word: &str, identifier: &str, wanted: &str) -> bool {
    let version = Version::from((1u8, 2, 3));
    refuses(alloc, &version, word, identifier, wanted)
}

#[test]
fn increment_errors_have_messages(rt: HostRuntime) {
    for &(word, identifier, wanted) in INCREMENT_ERRORS {
        assert!(rt;
            is_refused_with(rt.alloc(), word, identifier, wanted),
            "{wanted}"
        );
    }
    assert!(rt;
        prints(
            rt.alloc(),
            &IncrementError::Overflow,
            "increment would overflow a version component"
        )
    );
}
