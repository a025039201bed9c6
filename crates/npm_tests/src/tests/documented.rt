// The examples in the comments of the library: `tools/readme --check` compares them.

use nodejs_semver::diagnosis::version_flaw;
use nodejs_semver::{Range, VersionRef};
use npm_reading::{Coercion, Flaw, RangeFlaw, ReadRange, Reading, Wrong};
use std::test::Fail;

#[test]
fn npm_version(rt: HostRuntime) {
    let strict = Reading::default();
    let beta = VersionRef::parse("1.2.3-beta.1");
    assert!(rt; npm_reading::version(" v1.2.3-beta.1 ", strict) == beta);
    assert!(rt; npm_reading::version("1.2.03", strict).is_err());
    assert!(rt; npm_reading::version("1.2.3, the second beta", strict).is_err());
    let loose = Reading {
        loose: true,
        ..Reading::default()
    };
    assert!(rt; npm_reading::version("= v1.02.3beta", loose) == VersionRef::parse("1.2.3-beta"));
    assert!(rt; npm_reading::version("1.2.3, the second beta", loose).is_err());
}

#[test]
fn npm_clean(rt: HostRuntime) {
    assert!(rt; npm_reading::clean(" =v1.2.3 ") == VersionRef::parse("1.2.3"));
    assert!(rt; npm_reading::version(" =v1.2.3 ", Reading::default()).is_err());
    assert!(rt; npm_reading::clean("=1.2.03").is_err());
}

#[test]
fn npm_coerce(rt: HostRuntime) {
    assert!(rt; npm_reading::coerce("node-20.11 (LTS)") == VersionRef::parse("20.11.0").ok());
    assert!(rt; npm_reading::coerce("01.2").is_none());
}

#[test]
fn npm_coerce_with(rt: HostRuntime) {
    let last = Coercion {
        rtl: true,
        ..Coercion::default()
    };
    let found = npm_reading::coerce_with("app-2 1.4.0", last);
    assert!(rt; found == VersionRef::parse("1.4.0").ok());
    let whole = Coercion {
        include_prerelease: true,
        ..Coercion::default()
    };
    let found = npm_reading::coerce_with("v1.2-rc.3 (beta)", whole);
    assert!(rt; found == VersionRef::parse("1.2.0-rc.3").ok());
}

#[test]
fn npm_range(rt: HostRuntime) -> Result<(), Fail> {
    let alloc = rt.alloc();
    let strict = Reading::default();
    let version = VersionRef::parse("3.1.4")?;
    let range = npm_reading::range(alloc, ">=1.0.0 <2 || ~3.1", strict)?;
    assert!(rt; range.satisfies(&version));
    assert!(rt; npm_reading::range(alloc, ">=1.0.0, <2.0.0", strict).is_err());
    let loose = Reading {
        loose: true,
        ..Reading::default()
    };
    let beta = VersionRef::parse("1.2.3-beta")?;
    let range = npm_reading::range(alloc, "==1.2.3beta || ^02.1", loose)?;
    assert!(rt; range.satisfies(&beta));
    assert!(rt; npm_reading::range(alloc, "==1.2.3beta || ^02.1", strict).is_err());
    Ok(())
}

#[test]
fn npm_read_range(rt: HostRuntime) -> Result<(), Fail> {
    let alloc = rt.alloc();
    let beta = VersionRef::parse("1.3.0-beta")?;
    let reading = Reading {
        include_prerelease: true,
        ..Reading::default()
    };
    assert!(rt; ReadRange::parse(alloc, "^1.2", reading)?.satisfies(&beta));
    let range = ReadRange::parse(alloc, "^1.2", Reading::default())?;
    assert!(rt; !range.satisfies(&beta));
    Ok(())
}

#[test]
fn build_text(rt: HostRuntime) {
    let strict = Reading::default();
    assert!(rt; npm_reading::build_text(" v1.0.0-rc.1+001.0a ", strict) == Some("001.0a"));
    assert!(rt; npm_reading::build_text("1.0.0", strict) == Some(""));
    assert!(rt; npm_reading::build_text("1.0+001", strict).is_none());
    let loose = Reading {
        loose: true,
        ..Reading::default()
    };
    assert!(rt; npm_reading::build_text("= v1.02.3beta+007", loose) == Some("007"));
    assert!(rt; npm_reading::build_text("= v1.02.3beta+007", strict).is_none());
}

#[test]
fn gtr(rt: HostRuntime) -> Result<(), Fail> {
    let alloc = rt.alloc();
    let version = VersionRef::parse("2.0.0")?;
    let range = Range::parse(alloc, "^1.2")?;
    assert!(rt; npm_reading::gtr(&version, &range, false));
    Ok(())
}

#[test]
fn ltr(rt: HostRuntime) -> Result<(), Fail> {
    let alloc = rt.alloc();
    let version = VersionRef::parse("1.1.9")?;
    let range = Range::parse(alloc, "^1.2")?;
    assert!(rt; npm_reading::ltr(&version, &range, false));
    Ok(())
}

#[test]
fn npm_version_flaw(rt: HostRuntime) {
    assert!(rt; npm_reading::version_flaw(" v1.2.3-rc.1 ").is_none());
    let (wrong, at) = (Wrong::LeadingZero, 3);
    assert!(rt; npm_reading::version_flaw("1.02.3") == Some(Flaw::At { wrong, at }));
    let (wrong, at) = (Wrong::MissingHyphen, 5);
    assert!(rt; npm_reading::version_flaw("1.2.3beta") == Some(Flaw::At { wrong, at }));
}

#[test]
fn npm_range_flaw(rt: HostRuntime) {
    assert!(rt; npm_reading::range_flaw("^1.2 || >=2.0.0 <3", false).is_none());
    let flaw = RangeFlaw {
        start: 8,
        end: 19,
        word_start: 8,
        word_end: 16,
    };
    assert!(rt; npm_reading::range_flaw("^1.2 || >=2.0.0, <3 || 4", false) == Some(flaw));
}
