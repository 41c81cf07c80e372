//! What `--help` and `--version` print.

/// What `--version` prints, without a newline.
pub const VERSION_TEXT: &str = "cargo-audit 0.22.2";

/// What `--help` prints, its last line without a newline.
pub const HELP_TEXT: &str = "\
cargo-audit 0.22.2

Checks each package of a lockfile against the security advisories, and asks the
index whether its version is yanked.

Usage:
  cargo audit [OPTION]..
      a lockfile
  cargo audit [OPTION].. fix [FIX OPTION]..
      a lockfile, and print the updates that are needed; none is started
  cargo audit [OPTION].. bin [BIN OPTION].. PATH..
      files that hold a lockfile between the lines `#cargo-lock begin` and
      `#cargo-lock end`
  cargo audit [OPTION].. plan
      the lowest safe version of each vulnerable package
  cargo audit [OPTION].. vendor CRATES TO
      a local registry of the lockfile's packages, made in the folder TO from
      the crate files in the folder CRATES
  cargo audit generate N
      N made packages, 1 to 5000, audited twice in memory, without files or an
      index

Options before audit:
  -v, --verbose            read, but not used
  -h, --help; -V, --version

Options (defaults are those without settings; --ignore and --deny add to their
lists):
  -f, --file PATH          the lockfile, `-` for standard input
                           (default: Cargo.lock)
  -d, --db PATH            the advisories' folder
                           (default: advisory-db in cargo's home)
  -D, --deny KIND          end with 1 on a warning too: warnings (any but
                           notices, and advisories on cargo-audit itself),
                           unmaintained, unsound or yanked (default: none);
                           repeatable
      --ignore ID          leave out the advisory with this id (default: none);
                           repeatable
      --target-arch ARCH   only what affects this architecture (default: all);
                           repeatable
      --target-os OS       only what affects this system (default: all);
                           repeatable
      --no-yanked          don't check for yanked versions (default: check)
  -n, --no-fetch           don't ask the index, only its cache (default: ask)
      --format FORM        terminal, json or sarif (default: terminal)
      --json               the same as --format json, and stronger
  -q, --quiet              fewer status lines and no dependency trees
                           (default: both)
      --verdicts           print for each package whether it is yanked, and no
                           report
      --baseline PATH      print the findings that this file doesn't have, and
                           nothing else
      --write-baseline PATH
                           write the findings to this new file, and print
                           nothing
  -u, --url URL            read, but not used
      --stale              read, but not used
  -c, --color WHEN         always, auto or never; read, but not used
  -h, --help               print this text
  -V, --version            print the version

Fix options:
  -f, --file PATH          the lockfile (default: that of -f before fix)
      --dry-run            the updates would be started with --dry-run
  -h, --help               print this text

Bin options:
      --max-binary-size N         bytes that a file may have, 0 for any number
                                  (default: 104857600)
      --audit-data-size-limit N   bytes that its lockfile may have
                                  (default: 8388608)
      --                          only paths follow
  -h, --help                      print this text

The value of an option x is given as --x=v, --x v, -xv, -x=v or -x v; one that
begins with a dash is joined: --x=-v. Options of one letter without a value may
be joined: -nq. Only repeatable options may be repeated. Of --verdicts,
--baseline and --write-baseline one may be given, and no command follows the
last two.

Exit status:
  0   nothing was found that makes the audit fail
  1   a vulnerability, or a warning that is denied
  2   a fault: a wrong argument, wrong settings, a file that can't be read or is
      refused; under bin, if nothing else makes an audit fail, also an advisory
      on cargo-audit itself with -D warnings
  3   out of memory
  Under fix: 2 also if an update couldn't be started, 1 in a dry run if there is
  no patched version of something, and otherwise 0. This program starts no
  cargo, so fix ends with 2 if there is something to update.
  Under plan: 1 if a vulnerable package has no safe version or no record,
  otherwise 0.
  With --baseline: 2 also if the baseline is refused, 1 if a finding isn't in
  it, whatever is denied, and otherwise 0.
  With --write-baseline: 2 also if the file can't be made, and otherwise 0.
  Under vendor: 2 also if a package or the folder TO is refused, otherwise 0.

Environment:
  CARGO_HOME            cargo's home (default: .cargo in HOME)
  CARGO_AUDIT_INDEX     the folder of the cache (default: index-cache)
  CARGO_AUDIT_MIRROR    the folder that stands for the index
                        (default: index-mirror)

Files:
  .cargo/audit.toml     the settings; without it, audit.toml in cargo's home
  Cargo.lock            the lockfile
  crates/*/*.md         the advisories, in their folder";
