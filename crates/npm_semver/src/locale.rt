// Which letters the terminal shows.

ghost use Rattle.std.specs.Prelude.{◌≡◌, ◌↔◌, IfOk, true};
ghost use Rattle.std.specs.Str.Iter.{HasSubslice};
ghost use Rattle.npm_semver.specs.Locales.{HasUtf8, locale};

use std::alloc::{AllocError, Global};
use std::env;
use std::env::VarError;

/// Whether the locale of the environment has UTF-8. Fails only if allocation fails.
pub fn shows_utf8(rt: &HostRuntime) -> Result<bool, AllocError> {
    let all = variable(rt, "LC_ALL")?;
    let character_type = variable(rt, "LC_CTYPE")?;
    let language = variable(rt, "LANG")?;
    has_utf8(rt.alloc(), locale(&all, &character_type, &language))
}

// The value of a variable, which is empty if it is not set.
fn variable(rt: &HostRuntime, name: &str) -> Result<String, AllocError> {
    match env::var(rt, name) {
        Ok(value) => Ok(value),
        Err(VarError::OutOfMemory) => Err(AllocError),
        Err(_) => Ok(String::new(rt.alloc())),
    }
}

// The name of the locale.
fn locale<'a>(all: &'a str, character_type: &'a str, language: &'a str) -> &'a str
    ensures { result.now ≡ locale all.now character_type.now language.now }
{
    if !all.is_empty() {
        all
    } else if !character_type.is_empty() {
        character_type
    } else {
        language
    }
}

// Whether a locale of this name has UTF-8.
fn has_utf8(alloc: Global, name: &str) -> Result<bool, AllocError>
    ensures { IfOk result (λ has. (has ≡ true) ↔ HasUtf8 name.now) }
{
    let mut name = String::from_str(alloc, name)?;
    name.make_ascii_lowercase();
    if contains(&name, "utf-8") {
        return Ok(true);
    }
    Ok(contains(&name, "utf8"))
}

fn contains(text: &str, part: &str) -> bool
    ensures { (result ≡ true) ↔ HasSubslice text.now part.now }
{
    text.contains(part)
}
