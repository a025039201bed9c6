use npm_reading::{Coercion, ReadRange, Reading, coerce, coerce_with, version, version_flaw};
use std::test::Fail;

#[test]
fn texts_as_npm_reads_them(rt: HostRuntime) -> Result<(), Fail> {
    let npm = Reading::default();
    assert!(rt; version(" v1.2.3 ", npm)? == version("1.2.3", npm)?);
    assert!(rt; version("1.02.3", npm).is_err());
    assert!(rt; version_flaw("1.02.3").is_some());

    let loose = Reading { loose: true, ..npm };
    assert!(rt; version("1.02.3", loose)? == version("1.2.3", npm)?);

    let included = Reading {
        include_prerelease: true,
        ..npm
    };
    let beta = version("1.3.0-beta", npm)?;
    assert!(rt; !ReadRange::parse(rt.alloc(), "^1.2", npm)?.satisfies(&beta));
    assert!(rt; ReadRange::parse(rt.alloc(), "^1.2", included)?.satisfies(&beta));

    let from_right = Coercion {
        rtl: true,
        ..Coercion::default()
    };
    assert!(rt; coerce("node-20.11 (LTS)") == version("20.11.0", npm).ok());
    assert!(rt; coerce_with("app-2 1.4.0", from_right) == version("1.4.0", npm).ok());
    Ok(())
}
