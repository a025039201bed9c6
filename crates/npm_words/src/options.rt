// The options of node-semver's calls.

ghost use Rattle.std.specs.Prelude.{false, ◌≡◌};

/// How a text is read: the two options of node-semver that say so. By default neither is set.
#[derive(Clone, Copy, PartialEq, Eq, Debug)]
pub struct Reading {
    /// Whether the text is read loosely: numbers may have leading zeros, a pre-release may have no
    /// `-`, more marks may precede a version than one `v`, and malformed words of a range text are
    /// ignored.
    pub loose: bool,
    /// Whether a range accepts pre-releases like releases: `^1.2` then accepts 1.3.0-beta. It says
    /// nothing about the text of a version.
    pub include_prerelease: bool,
}

/// Strictly, and with pre-releases not included.
impl Default for Reading {
    ghost is_default = { λ r. r ≡ record { loose = false; include_prerelease = false } };

    fn default() -> Reading {
        Reading {
            loose: false,
            include_prerelease: false,
        }
    }
}

/// What [`coerce_with`](crate::coerce_with) looks for in a text: the three options of
/// node-semver's `coerce`. By default none is set.
#[derive(Clone, Copy, PartialEq, Eq, Debug)]
pub struct Coercion {
    /// Whether numbers may have leading zeros. Those of a pre-release may have none.
    pub loose: bool,
    /// Whether the version is looked for from the right.
    pub rtl: bool,
    /// Whether it has the pre-release and the build metadata that follow its numbers.
    pub include_prerelease: bool,
}

/// The leftmost numbers, without leading zeros, and nothing that follows them.
impl Default for Coercion {
    ghost is_default = { λ c.
        c ≡ record { loose = false; rtl = false; include_prerelease = false } };

    fn default() -> Coercion {
        Coercion {
            loose: false,
            rtl: false,
            include_prerelease: false,
        }
    }
}
