use npm_reading::{ReadRange, Reading, version};
use std::test::Fail;

#[test]
fn the_best_of_two_versions(rt: HostRuntime) -> Result<(), Fail> {
    let npm = Reading::default();
    let range = ReadRange::parse(rt.alloc(), "^1.2.3 || >=3.0.0-rc.1", npm)?;
    let versions = [version("1.2.9", npm)?, version("1.3.0-beta", npm)?];
    assert!(rt; !range.satisfies(&versions[1]));
    assert!(rt; range.max_satisfying(&versions) == Some(&versions[0]));
    assert!(rt; ReadRange::parse(rt.alloc(), ">=1.0.0, <2.0.0", npm).is_err());
    Ok(())
}
