// The text of `--help`.

pub const HELP: &str = "SemVer 1.0.0: sorts, filters and increments npm's versions

usage: semver [options] <version>...
       semver compare <version> [<operator>] <version>
       semver diff <version> <version>
       semver next <level> <version> [--preid <identifier>]
       semver range <range> [and|minus|within <range>]
       semver least <range>...
       semver explain <range>
       semver get major|minor|patch|prerelease|build <version>
       semver valid <version>
       semver key <version>... | semver key -
       semver unkey <key>...
       semver spans <range>
       semver sql <range> <column> [--dialect sqlite|postgres|duckdb|mysql]
       semver simplify <range>
       semver help | semver about

  -r, --range <range>         print only versions that the range accepts; of several ranges, all
  -p, --include-prerelease    let ranges accept every pre-release within their bounds
  -l, --loose                 read ranges, and the numbers that -c finds, loosely
  -c, --coerce                print the version that is found anywhere in a text
      --rtl, --ltr            find the numbers that end last, or the leftmost (default)
  -i, --increment [<level>]   print the next version: major, minor, patch (default), premajor,
                              preminor, prepatch or prerelease; takes one version
      --preid <identifier>    the identifier of the pre-release
  -n <base>                   the number behind it: 0 (default), 1, or false for none
  -rv, --reverse              print the greatest version first
  -v, --version <version>     a version, even if it looks like an option
  -h, --help                  print this text

beyond npm's program:

  -                           versions from standard input, one a line
      --max, --min            print the greatest or the least version alone
      --keep-order            print versions in the order in which they were given
      --json                  print a JSON array of strings
      --as-written            print each text as it was given, without the whitespace around it
      --field <n>             read the version in the nth field of each text, between spaces and
                              tabs, and print the text whole
  -z                          end each record that is read or printed with a NUL byte
      --strict                make the first text that is no version or no range, or the first
                              unknown option, an error
      --why                   tell on standard error why each text is left out

Prints each version without its build metadata, in ascending order. Texts that are no versions are
left out. Exits with 1 if no version is printed, and says why if the question cannot be answered:
with -l, where a range has a word that is not read; with -c and --as-written, or with --field and
--json, where a text has a control character, a quote or a backslash; and where --field has no
number. The subcommands exit with 0 for yes, 1 for no and 2 for a malformed question.
";
