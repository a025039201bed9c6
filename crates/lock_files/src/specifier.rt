// What a text in place of a range is to npm.

ghost use Rattle.lock_files.specs.Paths.{is_slash};
ghost use Rattle.lock_files.specs.Specifiers.{HasTwoParts, IsAlias, IsAliased, IsAtAddress};
ghost use Rattle.lock_files.specs.Specifiers.{IsAtPath, IsBareName, IsBehindNpm, IsBelowProject};
ghost use Rattle.lock_files.specs.Specifiers.{IsName, IsNoPath, IsOneOf, IsPage, IsPathOf, IsPlace};
ghost use Rattle.lock_files.specs.Specifiers.{IsRangeNamed, IsReadScheme, IsRepository, IsReserved};
ghost use Rattle.lock_files.specs.Specifiers.{IsSameAs};
ghost use Rattle.lock_files.specs.declared.specifier.Specifier.{Specifier};
ghost use Rattle.lock_files.specs.Specifiers.{IsScopeAndName, IsSpecifier, IsTag, IsUnsigned};
ghost use Rattle.lock_files.specs.Specifiers.{IsWeb, IsWithoutScheme, before_hash, begins_path};
ghost use Rattle.lock_files.specs.Specifiers.{behind_git, host_in, is_address, is_git};
ghost use Rattle.lock_files.specs.Specifiers.{is_of_registry, is_packed, is_part, is_place};
ghost use Rattle.lock_files.specs.Specifiers.{is_repository};
ghost use Rattle.lock_files.specs.Specifiers.{is_plain, is_remote, is_unmarked, is_url_byte};
ghost use Rattle.lock_files.specs.Specifiers.{is_word, scheme_of, target_of, without_www};
ghost use Rattle.semver_core.specs.Text.Characters.{is_whitespace};
ghost use Rattle.std.specs.Char.{is_ascii_alphabetic};
ghost use Rattle.std.specs.List.{after_first, before_first, list_all, list_any};
ghost use Rattle.std.specs.Prelude.{◌≡◌, ◌↔◌, ℕ, IfNone, IfSome, IsTrue, List, MatchOption};
ghost use Rattle.std.specs.Prelude.{false, map, option_map, true};
ghost use Rattle.std.specs.Str.{chars};

use semver_core::scan::{is_whitespace_code, trim};

// The schemes of the URLs that npm reads, but for those of packages at other places; behind `git+`
// those of the second list.
const SCHEMES: &[&str] = &[
    "bitbucket",
    "gist",
    "git",
    "github",
    "gitlab",
    "http",
    "https",
    "sourcehut",
    "ssh",
];

const GIT_SCHEMES: &[&str] = &["file", "ftp", "http", "https", "rsync", "ssh"];

// The hosts whose pages npm takes for repositories.
const HOSTS: &[&str] = &[
    "bitbucket.org",
    "gist.github.com",
    "git.sr.ht",
    "github.com",
    "gitlab.com",
];

/// What a text in place of a range is to npm.
#[derive(Clone, Copy)]
pub enum Specifier<'a> {
    /// A range, or else a tag: the text, or that behind the name of an alias `npm:NAME@RANGE`. The
    /// empty text is `*`.
    Range(&'a str),
    /// The path of a folder.
    Folder(&'a str),
    /// The path of a packed package.
    Packed(&'a str),
    /// The URL of a packed package.
    Page(&'a str),
    /// A repository, and the range of `#semver:RANGE` behind it.
    Repository(Option<&'a str>),
    /// A text that npm rejects, as the URL of a protocol that it does not read: `workspace:^` and
    /// `catalog:`.
    Unsupported,
}

impl<'a> Specifier<'a> {
    /// What the text is.
    pub fn of(text: &'a str) -> Specifier<'a>
        ensures { IsSpecifier text.now result }
    {
        if text.is_empty() {
            return Specifier::Range("*");
        }
        if is_of_registry(text) {
            return Specifier::Range(text);
        }
        match behind_npm(text) {
            Some(target) => alias(target),
            None => elsewhere(text),
        }
    }

    /// Whether it is a repository.
    pub fn is_repository(self) -> bool
        ensures { result ≡ is_repository self.entry }
    {
        matches!(self, Specifier::Repository(_))
    }
}

/// A text is one thing: what `Specifier::of` returns of it is all that its contract allows.
pub fn one_specifier()
    ensures { (text : List ℕ) (s t : Specifier) → IsSpecifier text s → IsSpecifier text t
        → IsSameAs s t }
{}

/// What stands behind `npm:`, if the text begins so.
pub fn behind_npm(text: &str) -> Option<&str>
    ensures { IsBehindNpm text.now (option_map (λ t. t.now) result) }
{
    match text.split_once(':') {
        Some((scheme, target)) if scheme.eq_ignore_ascii_case("npm") => Some(target),
        _ => None,
    }
}

// What a text is that is neither asked of a registry nor an alias.
fn elsewhere(text: &str) -> Specifier<'_>
    ensures { IsPlace text.now result }
{
    if let Some(path) = path(text) {
        return at_path(path);
    }
    match scheme(text) {
        Some((is_git, scheme, target)) => at_address(text, is_git, scheme, target),
        None => without_scheme(text),
    }
}

// The path that the text is, if it is one by its front. One letter before a colon is a drive.
fn path(text: &str) -> Option<&str>
    ensures { MatchOption result (IsNoPath text.now) (λ path. IsPathOf text.now path.now) }
{
    if begins_path(text) {
        return Some(text);
    }
    let (is_git, scheme, path) = scheme(text)?;
    if is_git {
        None
    } else if scheme.eq_ignore_ascii_case("file") {
        Some(path)
    } else if scheme.len() == 1 {
        Some(text)
    } else {
        None
    }
}

fn begins_path(text: &str) -> bool
    ensures { result ≡ begins_path text.now }
{
    text.starts_with('.') || text.starts_with('/') || text.starts_with("~/")
}

fn at_path(path: &str) -> Specifier<'_>
    ensures { IsAtPath path.now result }
{
    if is_packed(path) {
        Specifier::Packed(path)
    } else {
        Specifier::Folder(path)
    }
}

// What an address is, by its scheme and what stands behind that.
fn at_address<'a>(text: &'a str, is_git: bool, scheme: &str, target: &str) -> Specifier<'a>
    ensures { IsAtAddress text.now is_git scheme.now target.now result }
{
    if !is_read(is_git, scheme) {
        Specifier::Unsupported
    } else if !is_git && is_web(scheme) && is_page(target) {
        Specifier::Page(text)
    } else {
        Specifier::Repository(tagged(text))
    }
}

fn is_web(scheme: &str) -> bool
    ensures { IsTrue result ↔ IsWeb scheme.now }
{
    scheme.eq_ignore_ascii_case("http") || scheme.eq_ignore_ascii_case("https")
}

// What a text is that has no scheme and is no path by its front.
fn without_scheme(text: &str) -> Specifier<'_>
    ensures { IsWithoutScheme text.now result }
{
    if is_repository(text) {
        Specifier::Repository(tagged(text))
    } else if is_place(text) {
        at_path(text)
    } else {
        Specifier::Range(text)
    }
}

fn is_place(text: &str) -> bool
    ensures { result ≡ is_place text.now }
{
    text.contains('/') || is_packed(text)
}

// Whether a text ends as the names of packed packages do.
fn is_packed(text: &str) -> bool
    ensures { result ≡ is_packed text.now }
{
    text.ends_with(".tgz") || text.ends_with(".tar.gz") || text.ends_with(".tar")
}

// What stands behind `npm:`, a name and a range. A name may begin with an at sign of its own. A
// text without another one that is no name is a range itself.
fn alias(target: &str) -> Specifier<'_>
    ensures { IsAlias target.now result }
{
    let (text, is_scoped) = unsigned(target);
    match text.split_once('@') {
        Some((name, _)) if !is_aliased(name, is_scoped) => Specifier::Unsupported,
        Some((_, range)) if range.is_empty() => Specifier::Range("*"),
        Some((_, range)) if is_of_registry(range) => Specifier::Range(range),
        None if is_aliased(text, is_scoped) => Specifier::Range("*"),
        None if !is_scoped && is_of_registry(text) => Specifier::Range(text),
        _ => Specifier::Unsupported,
    }
}

/// The text without an at sign in front, and whether one stands there.
pub fn unsigned(target: &str) -> (&str, bool)
    ensures { IsUnsigned target.now result.1 result.0.now }
{
    match target.strip_prefix('@') {
        Some(text) => (text, true),
        None => (target, false),
    }
}

/// Whether a text is a name that an alias may have, which is no path. Of a name with a scope it is
/// what stands behind the at sign.
pub fn is_aliased(text: &str, is_scoped: bool) -> bool
    ensures { IsTrue result ↔ IsAliased is_scoped text.now }
{
    if is_scoped {
        is_scope_and_name(text)
    } else {
        is_bare_name(text) && !is_packed(text)
    }
}

// Whether a text is asked of a registry, and is neither a path nor an address.
fn is_of_registry(text: &str) -> bool
    ensures { result ≡ is_of_registry text.now }
{
    is_plain(text) && !text.starts_with('.') && !is_packed(text)
}

// Whether a text is neither a path nor an address.
fn is_plain(text: &str) -> bool
    ensures { result ≡ is_plain text.now }
{
    !text.contains('/') && !text.contains(':')
}

/// Whether npm takes a text for the name of a package, with a scope or without one: each of its
/// bytes may stand in a URL as it is, and it does not begin as a hidden file does.
pub fn is_name(text: &str) -> bool
    ensures { IsTrue result ↔ IsName text.now }
{
    match text.strip_prefix('@') {
        Some(text) => is_scope_and_name(text),
        None => is_bare_name(text),
    }
}

fn is_scope_and_name(text: &str) -> bool
    ensures { IsTrue result ↔ IsScopeAndName text.now }
{
    match text.split_once('/') {
        Some((scope, name)) => is_part(scope) && is_part(name),
        None => false,
    }
}

fn is_bare_name(text: &str) -> bool
    ensures { IsTrue result ↔ IsBareName text.now }
{
    is_part(text) && !text.starts_with('.') && !text.starts_with('_') && !is_reserved(text)
}

// Whether no package may have the name.
fn is_reserved(text: &str) -> bool
    ensures { IsTrue result ↔ IsReserved text.now }
{
    text.eq_ignore_ascii_case("node_modules") || text.eq_ignore_ascii_case("favicon.ico")
}

fn is_part(text: &str) -> bool
    ensures { result ≡ is_part text.now }
{
    !text.is_empty() && are_tag_bytes(text.as_bytes())
}

// Whether a page is that of a file, and of no repository at a host that npm knows.
fn is_page(target: &str) -> bool
    ensures { IsTrue result ↔ IsPage target.now }
{
    let (authority, path) = divided(target.trim_start_matches('/'));
    let host = host_in(authority);
    !is_one_of(HOSTS, host) || (host.eq_ignore_ascii_case("github.com") && is_below_project(path))
}

// What stands before and behind the first slash.
fn divided(place: &str) -> (&str, &str)
    ensures before { result.0.now ≡ before_first is_slash place.now }
    ensures behind { result.1.now ≡ after_first is_slash place.now }
{
    match place.split_once('/') {
        Some((authority, path)) => (authority, path),
        None => (place, ""),
    }
}

// The host behind a user.
fn host_in(authority: &str) -> &str
    ensures { result.now ≡ host_in authority.now }
{
    match authority.rsplit_once('@') {
        Some((_, host)) => without_www(host),
        None => without_www(authority),
    }
}

fn without_www(host: &str) -> &str
    ensures { result.now ≡ without_www host.now }
{
    match host.strip_prefix("www.") {
        Some(rest) => rest,
        None => host,
    }
}

// Whether the path of a page of GitHub leads to something of a project that is no branch.
fn is_below_project(path: &str) -> bool
    ensures { IsTrue result ↔ IsBelowProject path.now }
{
    match path.split('/').nth(2) {
        Some(part) => !part.is_empty() && part != "tree",
        None => false,
    }
}

// Whether a text without a scheme names a repository: `USER/PROJECT`, or `USER@HOST:PATH`.
fn is_repository(text: &str) -> bool
    ensures { IsTrue result ↔ IsRepository text.now }
{
    let front = before_hash(text);
    is_remote(front) || (has_two_parts(front) && is_unmarked(front))
}

fn before_hash(text: &str) -> &str
    ensures { result.now ≡ before_hash text.now }
{
    match text.split_once('#') {
        Some((front, _)) => front,
        None => text,
    }
}

fn is_remote(text: &str) -> bool
    ensures { result ≡ is_remote text.now }
{
    text.contains('@') && text.contains(':')
}

// Whether a text has one slash, and text on both sides of it.
fn has_two_parts(text: &str) -> bool
    ensures { IsTrue result ↔ HasTwoParts text.now }
{
    match text.split_once('/') {
        Some((user, project)) => {
            !user.is_empty() && !project.is_empty() && !project.contains('/')
        }
        None => false,
    }
}

fn is_unmarked(text: &str) -> bool
    ensures { result ≡ is_unmarked text.now }
{
    !text.contains(':') && !text.contains('@') && !has_whitespace(text)
}

fn has_whitespace(text: &str) -> bool
    ensures { result ≡ list_any is_whitespace (chars text.now) }
{
    text.chars()
        .any(|letter| is_whitespace_code(u32::from(letter)))
}

// The range that `#semver:` names behind an address, if it stands there as it is.
fn tagged(text: &str) -> Option<&str>
    ensures { IsRangeNamed text.now (option_map (λ t. t.now) result) }
{
    let (_, behind) = text.split_once("#semver:")?;
    if behind.contains('%') || behind.contains("::") {
        return None;
    }
    Some(behind)
}

// Whether npm reads URLs of this scheme.
fn is_read(is_git: bool, scheme: &str) -> bool
    ensures { IsTrue result ↔ IsReadScheme is_git scheme.now }
{
    let known = if is_git { GIT_SCHEMES } else { SCHEMES };
    is_one_of(known, scheme)
}

// Whether a text is one of these words, in letters of any case.
fn is_one_of(words: &[&str], text: &str) -> bool
    ensures { IsTrue result ↔ IsOneOf (map (λ word. word.now) words.now) text.now }
{
    words.iter().any(|word| word.eq_ignore_ascii_case(text))
}

/// Whether npm takes a text that is neither an address nor a range for a tag, as `latest`: each of
/// its bytes may stand in a URL as it is. Any other text is an error to npm.
pub fn is_tag(text: &str) -> bool
    ensures { IsTrue result ↔ IsTag text.now }
{
    are_tag_bytes(trim(text).as_bytes())
}

// The scheme at the front, if a colon follows some letters: whether `git+` stands before it, the
// letters, and what follows the colon.
fn scheme(text: &str) -> Option<(bool, &str, &str)>
    ensures some { IfSome result (λ x. (is_address text.now ≡ true) × (x.0 ≡ is_git text.now)
        × (x.1.now ≡ scheme_of text.now) × (x.2.now ≡ target_of text.now)) }
    ensures none { IfNone result (is_address text.now ≡ false) }
{
    let (is_git, behind) = behind_git(text);
    let Some((scheme, rest)) = behind.split_once(':') else {
        return None;
    };
    if is_word(scheme) {
        Some((is_git, scheme, rest))
    } else {
        None
    }
}

fn behind_git(text: &str) -> (bool, &str)
    ensures is { result.0 ≡ is_git text.now }
    ensures behind { result.1.now ≡ behind_git text.now }
{
    match text.strip_prefix("git+") {
        Some(behind) => (true, behind),
        None => (false, text),
    }
}

// Whether a text is letters, one or more.
fn is_word(text: &str) -> bool
    ensures { result ≡ is_word text.now }
{
    !text.is_empty() && are_letters(text.as_bytes())
}

fn are_letters(text: &[u8]) -> bool
    ensures { result ≡ list_all is_ascii_alphabetic text.now }
{
    text.iter().all(|byte| byte.is_ascii_alphabetic())
}

fn are_tag_bytes(text: &[u8]) -> bool
    ensures { result ≡ list_all is_url_byte text.now }
{
    text.iter().all(|byte| is_tag_byte(*byte))
}

// Whether JavaScript's `encodeURIComponent` keeps the byte.
fn is_tag_byte(byte: u8) -> bool
    ensures { result ≡ is_url_byte byte }
{
    byte.is_ascii_alphanumeric()
        || matches!(
            byte,
            b'-' | b'_' | b'.' | b'!' | b'~' | b'*' | b'\'' | b'(' | b')'
        )
}
