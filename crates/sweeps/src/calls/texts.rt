// The calls on JSON values and texts.

use crate::calls::show::{Outcome, no_values, read, show};
use nodejs_semver::json::{
    range_from_json_text, range_from_value, range_to_json_text, range_to_value,
    version_from_json_text, version_from_value, version_to_json_text, version_to_value,
};
use nodejs_semver::{Range, Version};
use std::alloc::Global;
use std::io;

/// Makes each call on JSON values and texts.
pub fn show_all(rt: &impl Print, alloc: Global) -> io::Result<()> {
    versions(rt, alloc)?;
    ranges(rt, alloc)?;
    for text in [
        "\"1.2.3-a.1.b+c.2.d\"",
        "\"^1.2.3-a.1.b || ~2.3.4-b || >=5.0.0-c <7.0.0-d\"",
        "\"1.2\"",
        "[1, {}]",
    ] {
        show(
            rt,
            "version_from_json_text",
            read(version_from_json_text(alloc, text)),
            &text,
        )?;
        show(
            rt,
            "range_from_json_text",
            read(range_from_json_text(alloc, text)),
            &text,
        )?;
    }
    Ok(())
}

fn versions(rt: &impl Print, alloc: Global) -> io::Result<()> {
    let Ok(version) = Version::parse(alloc, "1.2.3-a.1.b+c.2.d") else {
        return no_values(rt, "version_to_value");
    };
    show(
        rt,
        "version_to_json_text",
        Outcome::from(version_to_json_text(alloc, &version)),
        &version,
    )?;
    match version_to_value(alloc, &version) {
        Ok(value) => show(
            rt,
            "version_from_value",
            read(version_from_value(alloc, &value)),
            &version,
        ),
        Err(_) => println!(rt; "version_to_value: memory from {version}"),
    }
}

fn ranges(rt: &impl Print, alloc: Global) -> io::Result<()> {
    let Ok(range) = Range::parse(
        alloc,
        ">=1.2.3-a.1.b+c.2.d <2.0.0 || ~2.3.4-b || >=5.0.0-c <7.0.0-d",
    ) else {
        return no_values(rt, "range_to_value");
    };
    show(
        rt,
        "range_to_json_text",
        Outcome::from(range_to_json_text(alloc, &range)),
        &range,
    )?;
    match range_to_value(alloc, &range) {
        Ok(value) => show(
            rt,
            "range_from_value",
            read(range_from_value(alloc, &value)),
            &range,
        ),
        Err(_) => println!(rt; "range_to_value: memory from {range}"),
    }
}
