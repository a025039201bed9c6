// What is told of a finding, in whichever format.

ghost use Rattle.lock_check.specs.Findings.{is_told, kind_of};
ghost use Rattle.lock_check.specs.Rows.{told_fault, told_finding, told_row};
ghost use Rattle.std.specs.Prelude.{◌≡◌, ◌++◌, IfOk, OnOk, filter, map};

use crate::check::Findings;
use crate::finding::{Finding, Kind};
use lock_files::{Fault, Lines, Requirers, Shown};
use std::alloc::{AllocError, Global};

/// What is told of a finding.
#[derive(Drop)]
pub struct Row<'a> {
    pub kind: Kind,
    /// The package that has the dependency, and the line of the lock file where its entry begins.
    pub folder: &'a str,
    pub line: usize,
    /// The dependency, and what is wanted of it.
    pub name: Option<&'a str>,
    pub need: Option<&'a str>,
    /// The version that is locked, where that is what is wrong.
    pub found: Option<&'a str>,
    /// The path of dependencies from the root project to the package.
    pub path: Option<String>,
    pub message: String,
}

/// What is told: each malformed field, and each dependency that is rejected, missing or skipped, in
/// the order of the packages' folders. If it is quiet, nothing of those that are skipped. Fails
/// only if allocation fails.
pub fn rows<'a>(
    alloc: Global,
    findings: &Findings<'a>,
    lines: &Lines,
    is_quiet: bool,
) -> Result<Vec<Row<'a>>, AllocError>
    ensures { IfOk result (λ rows. map told_row rows.items
        ≡ map told_fault findings.now.faults.items
        ++ map told_finding (filter (λ f. is_told is_quiet (kind_of f.outcome))
        findings.now.of_dependencies.items)) }
{
    let mut rows = Vec::new(alloc);
    add_faults(alloc, &findings.faults, lines, &mut rows)?;
    let requirers = &findings.requirers;
    add_findings(
        alloc,
        &findings.of_dependencies,
        requirers,
        lines,
        is_quiet,
        &mut rows,
    )?;
    Ok(rows)
}

/// A row for each malformed field, in order. Fails only if allocation fails.
pub fn fault_rows<'a>(
    alloc: Global,
    faults: &[Fault<'a>],
    lines: &Lines,
) -> Result<Vec<Row<'a>>, AllocError>
    ensures { IfOk result (λ rows. map told_row rows.items ≡ map told_fault faults.now) }
{
    let mut rows = Vec::new(alloc);
    add_faults(alloc, faults, lines, &mut rows)?;
    Ok(rows)
}

fn add_faults<'a>(
    alloc: Global,
    faults: &[Fault<'a>],
    lines: &Lines,
    rows: &mut Vec<Row<'a>>,
) -> Result<(), AllocError>
    ensures { OnOk result (map told_row rows.new.items
        ≡ map told_row rows.old.items ++ map told_fault faults.now) }
{
    for fault in faults {
        rows.push(row_of_fault(alloc, *fault, lines)?)?;
    }
    Ok(())
}

fn add_findings<'a>(
    alloc: Global,
    findings: &[Finding<'a>],
    requirers: &Requirers<'a>,
    lines: &Lines,
    is_quiet: bool,
    rows: &mut Vec<Row<'a>>,
) -> Result<(), AllocError>
    ensures { OnOk result (map told_row rows.new.items ≡ map told_row rows.old.items
        ++ map told_finding (filter (λ f. is_told is_quiet (kind_of f.outcome)) findings.now)) }
{
    for finding in findings {
        if finding.is_told(is_quiet) {
            rows.push(row_of_finding(alloc, finding, requirers, lines)?)?;
        }
    }
    Ok(())
}

fn row_of_fault<'a>(alloc: Global, fault: Fault<'a>, lines: &Lines) -> Result<Row<'a>, AllocError>
    ensures { IfOk result (λ row. told_row row ≡ told_fault fault.entry) }
{
    let folder = fault.folder();
    let line = lines.line(folder);
    let name = fault.name();
    let message = format!(in alloc; "{fault}")?;
    Ok(Row {
        kind: Kind::Malformed,
        folder,
        line,
        name,
        need: None,
        found: None,
        path: None,
        message,
    })
}

fn row_of_finding<'a>(
    alloc: Global,
    finding: &Finding<'a>,
    requirers: &Requirers<'a>,
    lines: &Lines,
) -> Result<Row<'a>, AllocError>
    ensures { IfOk result (λ row. told_row row ≡ told_finding finding.now) }
{
    let dependency = finding.dependency;
    let folder = dependency.package.folder;
    let line = lines.line(folder);
    let path = requirers.path(alloc, folder)?;
    let message = message(alloc, finding, &path)?;
    Ok(Row {
        kind: finding.outcome.kind(),
        folder,
        line,
        name: Some(dependency.name),
        need: Some(dependency.wanted.text()),
        found: finding.outcome.version(),
        path,
        message,
    })
}

// What is found, and behind it the path to the package, unless that is the root project.
fn message(
    alloc: Global,
    finding: &Finding<'_>,
    path: &Option<String>,
) -> Result<String, AllocError> {
    match path {
        Some(path) if path.contains(" > ") => {
            format!(in alloc; "{finding} ({})", Shown(path.as_str()))
        }
        _ => format!(in alloc; "{finding}"),
    }
}
