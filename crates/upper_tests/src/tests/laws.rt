// How a caller uses the order's laws: it calls the law, and its own clause needs no proof file.

ghost use Rattle.nodejs_semver.specs.Order.{precedence};
ghost use Rattle.std.specs.Ordering.{is_le};
ghost use Rattle.std.specs.Prelude.{◌≡◌, IsTrue, true};

use nodejs_semver::{Version, laws};
use semver_core::laws::order_and_increments;
use std::test::Fail;

// Whether three versions rise. If they do, then the first is not above the last.
fn rise(one: &Version, other: &Version, last: &Version) -> bool
    ensures { IsTrue result → is_le (precedence one.now last.now) ≡ true }
{
    order_and_increments();
    one <= other && other <= last
}

#[test]
fn versions_that_rise(rt: HostRuntime) -> Result<(), Fail> {
    let pre = Version::parse(rt.alloc(), "1.3.0-a")?;
    let one = Version::from((1u64, 2, 3));
    let other = Version::from((1u64, 3, 0));
    assert!(rt; rise(&one, &pre, &other));
    assert!(rt; !rise(&one, &other, &pre));
    Ok(())
}

#[test]
fn laws_of_words(rt: HostRuntime) {
    laws::grammar();
    laws::meaning();
    assert!(rt; true);
}
