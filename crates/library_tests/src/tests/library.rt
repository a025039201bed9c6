use nodejs_semver::{Range, Version};
use std::test::Fail;

#[test]
fn the_best_of_two_versions(rt: HostRuntime) -> Result<(), Fail> {
    let alloc = rt.alloc();
    let range = Range::parse(alloc, "^1.2.3 || >=3.0.0-rc.1")?;
    let beta = Version::parse(alloc, "1.3.0-beta")?;
    assert!(rt; !range.satisfies(&beta));

    let versions = [Version::from((1u64, 2, 9)), beta];
    assert_eq!(rt; range.max_satisfying(&versions), Some(&versions[0]));

    let smallest = range.min_version(alloc)?;
    assert_eq!(rt; smallest, Some(Version::from((1u64, 2, 3))));
    Ok(())
}
