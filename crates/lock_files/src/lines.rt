// The lines of a lock file on which the entries of its packages begin.

use serde_json::Value;
use std::alloc::{AllocError, Global};
use std::collections::BTreeMap;

/// The line of the entry of each folder, from 1: that of its name.
#[derive(Drop)]
pub struct Lines {
    of_folders: BTreeMap<String, usize>,
}

// What the names in an object or an array are.
#[derive(Drop)]
enum Part {
    /// Those of the whole file.
    File,
    /// Folders of packages.
    Folders,
    /// Packages inside this folder, each with those inside it.
    Packages(String),
    /// The fields of the package in this folder.
    Fields(String),
    Other,
}

// What was read of a text.
#[derive(Drop)]
struct Scan<'t> {
    alloc: Global,
    text: &'t str,
    is_nested: bool,
    line: usize,
    is_in_text: bool,
    is_escaped: bool,
    // Where the last text begins, and its line; and where it ends.
    start: usize,
    start_line: usize,
    end: usize,
    // The name of what comes, and the parts of the file in which it stands.
    name: String,
    around: Vec<Part>,
    of_folders: BTreeMap<String, usize>,
}

impl Lines {
    /// The lines of a text that is JSON. `is_nested` says whether packages stand inside one
    /// another, as in lock files of version 1.
    pub fn of(alloc: Global, text: &str, is_nested: bool) -> Result<Lines, AllocError> {
        let mut scan = Scan {
            alloc,
            text,
            is_nested,
            line: 1,
            is_in_text: false,
            is_escaped: false,
            start: 0,
            start_line: 1,
            end: 0,
            name: String::new(alloc),
            around: Vec::new(alloc),
            of_folders: BTreeMap::new(alloc),
        };
        for (at, &byte) in text.as_bytes().iter().enumerate() {
            scan.step(at, byte)?;
        }
        let Scan { of_folders, .. } = scan;
        Ok(Lines { of_folders })
    }

    /// The line of the entry of this folder, or 1 if it has none.
    pub fn line(&self, folder: &str) -> usize {
        self.of_folders.get(folder).copied().unwrap_or(1)
    }
}

impl<'t> Scan<'t> {
    // Reads the byte at this place.
    fn step(&mut self, at: usize, byte: u8) -> Result<(), AllocError> {
        if byte == b'\n' {
            self.line = self.line.saturating_add(1);
        }
        if self.is_in_text {
            self.step_in_text(at, byte);
            return Ok(());
        }
        match byte {
            b'"' => {
                self.is_in_text = true;
                self.start = at;
                self.start_line = self.line;
            }
            b':' => self.begin_member()?,
            b'{' | b'[' => {
                let part = self.part_inside()?;
                self.around.push(part)?;
            }
            b'}' | b']' => drop(self.around.pop()),
            _ => {}
        }
        Ok(())
    }

    fn step_in_text(&mut self, at: usize, byte: u8) {
        if self.is_escaped {
            self.is_escaped = false;
        } else if byte == b'\\' {
            self.is_escaped = true;
        } else if byte == b'"' {
            self.is_in_text = false;
            self.end = at.saturating_add(1);
        }
    }

    // Takes the last text for the name of what comes.
    fn begin_member(&mut self) -> Result<(), AllocError> {
        let quoted = self.text.get(self.start..self.end).unwrap_or("");
        self.name = unquoted(self.alloc, quoted)?;
        let folder = match self.around.last() {
            Some(Part::Folders) => self.name.clone()?,
            Some(Part::Packages(above)) => inner(self.alloc, above, &self.name)?,
            _ => return Ok(()),
        };
        self.of_folders.insert(folder, self.start_line)?;
        Ok(())
    }

    // What the names are in the object that begins, or in the array.
    fn part_inside(&self) -> Result<Part, AllocError> {
        let name = self.name.as_str();
        Ok(match self.around.last() {
            None => Part::File,
            Some(Part::File) if !self.is_nested && name == "packages" => Part::Folders,
            Some(Part::File) if self.is_nested && name == "dependencies" => {
                Part::Packages(String::new(self.alloc))
            }
            Some(Part::Packages(above)) => Part::Fields(inner(self.alloc, above, name)?),
            Some(Part::Fields(folder)) if name == "dependencies" => Part::Packages(folder.clone()?),
            _ => Part::Other,
        })
    }
}

// The folder of a package inside another folder.
fn inner(alloc: Global, above: &str, name: &str) -> Result<String, AllocError> {
    let slash = if above.is_empty() { "" } else { "/" };
    format!(in alloc; "{above}{slash}node_modules/{name}")
}

// What a text in quotes stands for.
fn unquoted(alloc: Global, quoted: &str) -> Result<String, AllocError> {
    if quoted.contains('\\') {
        if let Ok(Value::String(text)) = Value::from_str(alloc, quoted) {
            return Ok(text);
        }
    }
    let text = quoted.strip_prefix('"').and_then(|it| it.strip_suffix('"'));
    text.unwrap_or("").to_string(alloc)
}
