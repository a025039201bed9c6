// What the program prints about itself.

/// The first line of the help.
pub const VERSION: &str = "lock_check 1.0.0\n";

/// What follows the error if the arguments ask for nothing.
pub const USAGE: &str = "usage: lock_check [<option>..] [<folder> | <lock file> | -]";

/// What follows the version.
pub const HELP: &str = "Checks a package-lock.json of npm, without npm, node_modules or a registry.

usage: lock_check [<option>..] [<folder> | <lock file> | -]

  <folder>      npm-shrinkwrap.json or else package-lock.json of a folder, and
                its package.json, which is the root project, with its overrides
  <lock file>   a lock file, and the package.json beside it
  -             a lock file on standard input; so too without an argument, and
                with that of a package.json, which is then the root project

      --json    a line of JSON for each finding
      --annotate  a command for each finding, which GitHub shows at its line
      --outdated <index>  what the locked versions may be raised to, by an index:
                lines of a package, a tab and a version
  -q, --quiet   only what is wrong: nothing skipped, and no counts
  -h, --help    print this text
      --version print the first line of it

Prints each dependency whose locked version its range rejects, each that is
missing, and what is skipped or malformed, each with the line of the lock file
where the package begins that has the dependency, and the path of packages from
the root project that leads to it. The last line counts them. Exits with 0 if
nothing is wrong, with 1 if something is, and with 2 if the check could not be
made or is not whole.

With an index it prints, of each dependency by a range of a registry, the
greatest version that the range accepts above the locked one, and the newest if
the range does not accept it, and why. Exits with 1 if there is such a version.
";
