// The examples in the comments of the library: `tools/readme --check` compares them.

use semver_core::{Identifier, Version, VersionDiff, VersionRef, Versioned, cmp_build};
use std::cmp::Ordering;
use std::test::Fail;

#[test]
fn version_parse(rt: HostRuntime) -> Result<(), Fail> {
    let alloc = rt.alloc();
    let version = Version::parse(alloc, "v1.2.3-beta.1, the second beta")?;
    assert!(rt; version == Version::parse(alloc, "1.2.3-beta.1+another.build")?);
    assert!(rt; Version::parse(alloc, "1.2").is_err());
    Ok(())
}

#[test]
fn version_ref_parse(rt: HostRuntime) -> Result<(), Fail> {
    let beta = VersionRef::parse("v1.2.3-beta.1, the second beta")?;
    assert!(rt; beta < VersionRef::parse("1.2.3+build")?);
    assert!(rt; VersionRef::parse("1.2").is_err());
    Ok(())
}

#[test]
fn from_texts(rt: HostRuntime) {
    let alloc = rt.alloc();
    let (pre_release, build) = (b"rc.1", b"exp");
    if Identifier::is_list(pre_release) && Identifier::is_list(build) {
        let version = Version::from_texts(alloc, 1, 2, 3, pre_release, build).ok();
        assert!(rt; version == Version::parse(alloc, "1.2.3-rc.1+exp").ok());
    }
}

#[test]
fn into_parts(rt: HostRuntime) -> Result<(), Fail> {
    let alloc = rt.alloc();
    let version = Version::parse(alloc, "1.2.3-beta.1+exp")?;
    match version.into_parts(alloc) {
        Ok(parts) => assert!(rt; parts.patch == 3 && parts.pre_release.len() == 2),
        Err(version) => assert!(rt; version.is_prerelease()),
    }
    Ok(())
}

#[test]
fn diff(rt: HostRuntime) -> Result<(), Fail> {
    let alloc = rt.alloc();
    let beta = Version::parse(alloc, "1.3.0-beta")?;
    let kind = Version::from((1u64, 2, 3)).diff(&beta);
    assert!(rt; kind == Some(VersionDiff::PreMinor));
    Ok(())
}

#[test]
fn inc(rt: HostRuntime) {
    let alloc = rt.alloc();
    let release = Version::from((1u64, 2, 3));
    let beta = release.inc(alloc, "prerelease", Some("beta"), None).ok();
    assert!(rt; beta == Version::parse(alloc, "1.2.4-beta.0").ok());
}

#[test]
fn without_build(rt: HostRuntime) -> Result<(), Fail> {
    let version = VersionRef::parse("1.2.3-rc.1+exp")?;
    assert!(rt; version.without_build().build().is_empty());
    Ok(())
}

#[test]
fn version_ref_next(rt: HostRuntime) -> Result<(), Fail> {
    let alloc = rt.alloc();
    let candidate = VersionRef::parse("1.2.3-rc.1")?;
    let next = candidate.next(alloc, "prerelease", None, None)?;
    assert!(rt; next.to_version(alloc)? == Version::parse(alloc, "1.2.3-rc.2")?);
    Ok(())
}

#[test]
fn version_ref_inc(rt: HostRuntime) -> Result<(), Fail> {
    let alloc = rt.alloc();
    let release = VersionRef::parse("1.2.3")?;
    let beta = release.inc(alloc, "prerelease", Some("beta"), None).ok();
    assert!(rt; beta == Version::parse(alloc, "1.2.4-beta.0").ok());
    Ok(())
}

#[test]
fn order_with_builds(rt: HostRuntime) -> Result<(), Fail> {
    let one = VersionRef::parse("1.0.0+9")?;
    let other = VersionRef::parse("1.0.0+10")?;
    assert!(rt; cmp_build(&one, &other) == Ordering::Less);
    Ok(())
}

#[test]
fn is_readable(rt: HostRuntime) -> Result<(), Fail> {
    assert!(rt; VersionRef::parse("1.2.3-rc.1")?.is_readable(3));
    assert!(rt; !VersionRef::parse("1.2.4")?.is_readable(3));
    Ok(())
}

#[test]
fn version_key(rt: HostRuntime) -> Result<(), Fail> {
    let alloc = rt.alloc();
    let beta = Version::parse(alloc, "1.10.0-rc.2")?.key(alloc)?;
    assert!(rt; beta.as_slice() == [1, 10, 0, 2, b'r', b'c', 0, 1, 2, 0].as_slice());
    Ok(())
}

#[test]
fn from_key(rt: HostRuntime) -> Result<(), Fail> {
    let alloc = rt.alloc();
    let version = Version::from_key(alloc, &[1, 2, 3, 3])?;
    assert!(rt; version == Some(Version::parse(alloc, "1.2.3")?));
    assert!(rt; Version::from_key(alloc, &[1, 2, 3])?.is_none());
    Ok(())
}

#[test]
fn version_ref_key(rt: HostRuntime) -> Result<(), Fail> {
    let alloc = rt.alloc();
    let (nine, ten) = (VersionRef::parse("1.9.0")?, VersionRef::parse("1.10.0")?);
    assert!(rt; nine.key(alloc)? < ten.key(alloc)?);
    Ok(())
}

#[test]
fn write_key(rt: HostRuntime) -> Result<(), Fail> {
    let alloc = rt.alloc();
    let mut bytes = Vec::from_slice(alloc, b"left-pad\0")?;
    VersionRef::parse("1.2.3")?.write_key(&mut bytes)?;
    assert!(rt; bytes.as_slice() == b"left-pad\0\x01\x02\x03\x03".as_slice());
    Ok(())
}
