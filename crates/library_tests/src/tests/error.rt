// The messages of errors.

use super::prints;
use nodejs_semver::RangeError;

const RANGE_ERRORS: &[(RangeError, &str)] = &[
    (
        RangeError::InvalidOutsideDirection('='),
        "outside() only supports checking whether a version is above or below a range, found `=`",
    ),
    (
        RangeError::MissingComparatorBounds,
        "outside() could not determine comparator bounds for this range",
    ),
];

#[test]
fn range_errors_have_messages(rt: HostRuntime) {
    for &(error, wanted) in RANGE_ERRORS {
        assert!(rt; prints(rt.alloc(), &error, wanted), "{wanted}");
    }
}
