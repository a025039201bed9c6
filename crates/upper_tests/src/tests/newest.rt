use nodejs_semver::{RangeRef, VersionRef};

// The newest version of the lines that a range accepts. Nothing is allocated.
fn newest<'a>(range: &RangeRef<'_>, lines: &'a str) -> Option<VersionRef<'a>> {
    lines
        .lines()
        .filter_map(|line| VersionRef::parse(line).ok())
        .filter(|version| range.satisfies(version))
        .max()
}

#[test]
fn the_newest_line(rt: HostRuntime) {
    let lines = "1.2.2\n1.9.0\nyanked\n1.10.0-beta\n1.3.0\n2.0.0\n";
    match RangeRef::parse(rt.alloc(), "^1.2.3") {
        Ok(range) => {
            assert!(rt; newest(&range, lines) == VersionRef::parse("1.9.0").ok());
            assert!(rt; newest(&range, "2.0.0").is_none());
        }
        Err(_) => assert!(rt; false),
    }
}
