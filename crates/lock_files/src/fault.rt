// What is malformed in a lock file or in a package.json.

ghost use Rattle.lock_files.specs.Faults.{fault_folder, fault_name};
ghost use Rattle.std.specs.Prelude.{◌≡◌, option_map};

use crate::shown::Shown;
use std::fmt;

/// What is malformed, so that no dependency is read of it.
#[derive(Clone, Copy)]
pub enum Fault<'a> {
    /// The field of this name is not an object.
    Field {
        folder: &'a str,
        field: &'static str,
    },
    /// What stands for the range of the dependency of this name is not a text.
    Range {
        folder: &'a str,
        name: &'a str,
    },
    /// What stands for this name in `overrides` is neither a text nor an object, or the name is not
    /// that of a package, with a range or without one.
    Override {
        name: &'a str,
    },
    /// `workspaces` is no list of texts.
    Workspaces,
    /// Nothing is known of the root project.
    NoRoot,
}

impl<'a> Fault<'a> {
    /// The folder of the package in which it is.
    pub fn folder(self) -> &'a str
        ensures { result.now ≡ fault_folder self.entry }
    {
        match self {
            Fault::Field { folder, .. } | Fault::Range { folder, .. } => folder,
            Fault::Override { .. } | Fault::Workspaces | Fault::NoRoot => "",
        }
    }

    /// The name of the dependency about which it is.
    pub fn name(self) -> Option<&'a str>
        ensures { option_map (λ t. t.now) result ≡ fault_name self.entry }
    {
        match self {
            Fault::Range { name, .. } | Fault::Override { name } => Some(name),
            Fault::Field { .. } | Fault::Workspaces | Fault::NoRoot => None,
        }
    }
}

impl fmt::Display for Fault<'_> {
    fn fmt<W: fmt::Write>(&self, f: &mut fmt::Formatter<W>) -> fmt::Result {
        match self {
            Fault::Field { folder, field } => {
                let folder = Shown::folder(folder);
                write!(f, "{folder}, malformed: `{field}` is not an object")
            }
            Fault::Range { folder, name } => {
                let (folder, name) = (Shown::folder(folder), Shown(name));
                write!(
                    f,
                    "{folder} needs {name}, malformed: its range is not a text"
                )
            }
            Fault::Override { name } => { write!(f, ". overrides {}, malformed", Shown(name)) }
            Fault::Workspaces => write!(f, "., malformed: `workspaces` is no list of texts"),
            Fault::NoRoot => write!(
                f,
                "., malformed: the root project is unknown without its package.json"
            ),
        }
    }
}
