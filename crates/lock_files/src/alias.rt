// Which package a registry is asked for.

use crate::specifier::{behind_npm, is_aliased, unsigned};

/// The package that a registry is asked for where a dependency of this name wants this text: that
/// which an alias `npm:NAME@RANGE` names, and else that of the name itself.
pub fn package_of<'a>(name: &'a str, wanted: &'a str) -> &'a str {
    match behind_npm(wanted) {
        Some(target) => named(target).unwrap_or(name),
        None => name,
    }
}

// The name at the front of what stands behind `npm:`, if there is one.
fn named(target: &str) -> Option<&str> {
    let (text, is_scoped) = unsigned(target);
    match text.split_once('@') {
        Some((name, range)) if is_aliased(name, is_scoped) => {
            target.strip_suffix(range)?.strip_suffix('@')
        }
        None if is_aliased(text, is_scoped) => Some(target),
        _ => None,
    }
}
