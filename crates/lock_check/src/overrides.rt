// `overrides` of the root project, which changes what packages depend on.

ghost use Rattle.lock_files.specs.Faults.{Extends};
ghost use Rattle.lock_check.specs.Internal.Overriding.{AreAllLaid, AreInsideTold, AreItsRules};
ghost use Rattle.lock_check.specs.Internal.Overriding.{AreLaid, IsAboutIf, IsFirstHit, IsFound};
ghost use Rattle.lock_check.specs.Internal.Overriding.{IsFoundScope, IsInnerScope, IsObject};
ghost use Rattle.lock_check.specs.Internal.Overriding.{IsRuleAt, IsRuleOf, IsScopeOf};
ghost use Rattle.lock_files.specs.Lookups.{IsAt, written_in};
ghost use Rattle.lock_check.specs.Malformed.{AreRulesTold, HasOtherRules, IsFault};
ghost use Rattle.lock_files.specs.Faults.{HasFault};
ghost use Rattle.lock_files.specs.Faults.{IsFieldFault, OfFields};
ghost use Rattle.lock_check.specs.Overrides.{IsKey, IsNoRule, IsPutBy, IsReached, MayBeIn, Place};
ghost use Rattle.lock_check.specs.Overrides.{referenced, rule_text};
ghost use Rattle.lock_check.specs.Overrides.{some_text};
ghost use Rattle.lock_check.specs.Replacements.{IsReplacement};
ghost use Rattle.lock_files.specs.declared.lock.Lock.{Lock};
ghost use Rattle.semver_core.specs.Lists.{is_empty};
ghost use Rattle.lock_files.specs.declared.lock.Package.{Package};
ghost use Rattle.lock_check.specs.declared.overrides.Rule.{Rule};
ghost use Rattle.serde_json.specs.View.{members_view, view};
ghost use Rattle.std.specs.Prelude.{◌≡◌, ◌≢◌, ◌++◌, ◌∷◌, [], if◌then◌else◌, ⊤, ℕ};
ghost use Rattle.std.specs.Prelude.{◌↔◌, All, IfNone, IfOk, IfSome, IsTrue, List};
ghost use Rattle.std.specs.Prelude.{MatchOption, OnOk, Option, codes, length, option_map};

use crate::reading::{NpmRange, range, read_range};
use lock_files::{Dependency, Fault, Field, Package, Specifier, Wanted, is_tag, unsigned};
use nodejs_semver::RangeRef;
use semver_core::scan::trim;
use serde_json::{Map, Value};
use std::alloc::{AllocError, Global};

/// Where a package stands: the rules that are nested in this one hold for its dependencies, and
/// those outside it.
#[derive(Clone, Copy, PartialEq, Eq)]
pub enum Scope {
    /// In no rule.
    Top,
    /// In the rule of this number.
    Rule(usize),
}

/// What is put in the place of a range.
#[derive(Clone, Copy)]
enum Replacement<'a> {
    /// The range stays.
    Nothing,
    Text(&'a str),
    /// `$NAME`: what the root project has for its own dependency of this name.
    Reference(&'a str),
}

// One rule.
#[derive(Drop)]
struct Rule<'a> {
    // Where it stands.
    outer: Scope,
    name: &'a str,
    // The range behind the name, as in `NAME@RANGE`.
    range: Option<RangeRef<'a>>,
    replacement: Replacement<'a>,
}

/// All rules of `overrides`.
#[derive(Drop)]
pub struct Overrides<'a> {
    root: Option<Package<'a>>,
    rules: Vec<Rule<'a>>,
}

impl Scope {
    fn is(self, other: Scope) -> bool
        ensures { IsTrue result ↔ (self ≡ other) }
    {
        self == other
    }
}

impl<'a> Replacement<'a> {
    fn of(text: &'a str) -> Replacement<'a>
        ensures { IsReplacement text.now result }
    {
        match text.strip_prefix('$') {
            Some(name) => Replacement::Reference(name),
            None if matches!(text, "" | "*") => Replacement::Nothing,
            None => Replacement::Text(text),
        }
    }
}

impl<'a> Rule<'a> {
    // The rule of a key and its value, or `None` if one of them is malformed.
    fn of(
        alloc: Global,
        outer: Scope,
        key: &'a str,
        value: &'a Value,
    ) -> Result<Option<Rule<'a>>, AllocError>
        ensures some { IfOk result (λ rule. IfSome rule (IsRuleOf key.now (view value.now))) }
        ensures none { IfOk result (λ rule. IfNone rule (IsNoRule key.now (view value.now))) }
        ensures at { IfOk result (λ rule. IfSome rule (λ r. r.outer ≡ outer)) }
    {
        let (name, wanted) = split_key(key);
        let Some(text) = text_of(wanted, value) else {
            return Ok(None);
        };
        if name.is_empty() {
            return Ok(None);
        }
        let range = match wanted {
            "*" => None,
            wanted => match read_range(alloc, false, wanted)? {
                Some(range) => Some(range),
                None => return Ok(None),
            },
        };
        let replacement = Replacement::of(text);
        Ok(Some(Rule {
            outer,
            name,
            range,
            replacement,
        }))
    }

    // Whether the rule is about this dependency. Its range has to be one that has a version in
    // common with that of the rule; a tag or an address may be any version. A text that npm rejects
    // or may read otherwise stays as it is, and is judged so.
    fn is_about(&self, alloc: Global, dependency: Dependency<'a>) -> Result<bool, AllocError>
        ensures { IfOk result (IsAboutIf dependency.entry self.now) }
    {
        if self.name != dependency.name {
            return Ok(false);
        }
        match &self.range {
            Some(own) => is_reached(alloc, own, dependency.wanted.specifier()),
            None => Ok(true),
        }
    }
}

// Whether what is wanted may be in this range.
fn is_reached(alloc: Global, own: &RangeRef<'_>, wanted: Specifier<'_>) -> Result<bool, AllocError>
    ensures { IfOk result (λ is. IsTrue is ↔ IsReached own.now wanted.entry) }
{
    match wanted {
        Specifier::Range(text) => may_be_in(alloc, own, text),
        Specifier::Repository(range) => match range {
            Some(text) => may_be_in(alloc, own, text),
            None => Ok(false),
        },
        Specifier::Unsupported => Ok(false),
        Specifier::Folder(_) | Specifier::Packed(_) | Specifier::Page(_) => Ok(true),
    }
}

// Whether a text that npm may read as a range, or as a tag, may be in this range.
fn may_be_in(alloc: Global, own: &RangeRef<'_>, text: &str) -> Result<bool, AllocError>
    ensures { IfOk result (λ is. IsTrue is ↔ MayBeIn own.now text.now) }
{
    Ok(match range(alloc, text)? {
        NpmRange::Read(wanted) => wanted.allows_any(own),
        NpmRange::Rejected => is_tag(text),
        NpmRange::Unsure => false,
    })
}

// The name in a key, and the range behind it. A name may begin with an at sign of its own.
fn split_key(key: &str) -> (&str, &str)
    ensures { IsKey key.now result.0.now result.1.now }
{
    let (rest, _) = unsigned(key);
    let Some((_, behind)) = rest.split_once('@') else {
        return (key, "*");
    };
    let Some(name) = name_before(key, behind) else {
        return (key, "*");
    };
    (name, or_any(trim(behind)))
}

// A range, or the one that accepts any version where nothing is written.
fn or_any(range: &str) -> &str
    ensures { result.now ≡ (if is_empty range.now then codes "*" else range.now) }
{
    if range.is_empty() { "*" } else { range }
}

// What stands in front of an at sign that has this text behind it.
fn name_before<'a>(key: &'a str, behind: &str) -> Option<&'a str>
    ensures some { IfSome result (λ name. key.now ≡ name.now ++ 64 ∷ behind.now) }
    ensures none { IfNone result ((front : List ℕ) → key.now ≢ front ++ 64 ∷ behind.now) }
{
    match key.strip_suffix(behind) {
        Some(front) => front.strip_suffix('@'),
        None => None,
    }
}

// The text of a rule with this range in its key.
fn text_of<'a>(range: &'a str, value: &'a Value) -> Option<&'a str>
    ensures { option_map (λ t. t.now) result ≡ rule_text range.now (view value.now) }
{
    match value.get(".") {
        Some(text) => text.as_str(),
        None if value.is_object() => Some(range),
        None => value.as_str(),
    }
}

// The object `overrides` of the root project, if it has one.
fn outermost<'a>(
    root: Option<Package<'a>>,
    faults: &mut Vec<Fault<'a>>,
) -> Result<Option<&'a Map<String, Value>>, AllocError>
    ensures found { IfOk result (λ found. IsFound root.entry
        (option_map (λ object. members_view object.now.entries) found)) }
    ensures kept { OnOk result (Extends faults.old.items faults.new.items) }
    ensures told { OnOk result ((lock : Lock) → IsAt lock [] root.entry
        → OfFields lock [] HasOtherRules
        → HasFault faults.new.items (IsFieldFault [] (codes "overrides"))) }
    ensures wrong { OnOk result ((lock : Lock) → IsAt lock [] root.entry
        → All (IsFault lock) faults.old.items → All (IsFault lock) faults.new.items) }
{
    let Some(package) = root else {
        return Ok(None);
    };
    let Some(value) = package.fields.get("overrides") else {
        return Ok(None);
    };
    let found = value.as_object();
    if found.is_none() {
        faults.push(Fault::Field {
            folder: "",
            field: "overrides",
        })?;
    }
    Ok(found)
}

// Adds the rules of an object that stands in this scope, and those nested in them. JSON is read to
// a depth of 127, so the calls nest no deeper.
fn add_rules<'a>(
    alloc: Global,
    outer: Scope,
    object: &'a Map<String, Value>,
    rules: &mut Vec<Rule<'a>>,
    faults: &mut Vec<Fault<'a>>,
) -> Result<(), AllocError>
    ensures rules { OnOk result ((root : Option Package)
        → IsObject root (members_view object.now.entries)
        → AreItsRules root rules.old.items → AreItsRules root rules.new.items) }
    ensures more { OnOk result (Extends rules.old.items rules.new.items) }
    ensures laid { OnOk result ((all : List Rule) → Extends rules.new.items all
        → AreLaid all outer (length rules.old.items) (length rules.new.items)
        (members_view object.now.entries)) }
    ensures kept { OnOk result (Extends faults.old.items faults.new.items) }
    ensures told { OnOk result (AreInsideTold faults.new.items
        (members_view object.now.entries)) }
    ensures wrong { OnOk result ((lock : Lock) (root : Option Package) → IsAt lock [] root
        → IsObject root (members_view object.now.entries)
        → All (IsFault lock) faults.old.items → All (IsFault lock) faults.new.items) }
{
    for (key, value) in object.iter() {
        let name = key.as_str();
        if name == "." {
            continue;
        }
        let Some(rule) = Rule::of(alloc, outer, name, value)? else {
            faults.push(Fault::Override { name })?;
            continue;
        };
        let scope = Scope::Rule(rules.len());
        rules.push(rule)?;
        if let Some(inner) = value.as_object() {
            add_rules(alloc, scope, inner, rules, faults)?;
        }
    }
    Ok(())
}

impl<'a> Overrides<'a> {
    /// The rules of the root project. Each that is malformed is added to `faults`.
    pub(crate) fn of(
        alloc: Global,
        root: Option<Package<'a>>,
        faults: &mut Vec<Fault<'a>>,
    ) -> Result<Overrides<'a>, AllocError>
        ensures root { IfOk result (λ overrides. overrides.root ≡ root.entry) }
        ensures rules { IfOk result (λ overrides.
            AreItsRules root.entry overrides.rules.items) }
        ensures laid { IfOk result (λ overrides.
            AreAllLaid root.entry overrides.rules.items) }
        ensures kept { OnOk result (Extends faults.old.items faults.new.items) }
        ensures told { OnOk result ((lock : Lock) → IsAt lock [] root.entry
            → OfFields lock [] HasOtherRules
            → HasFault faults.new.items (IsFieldFault [] (codes "overrides"))) }
        ensures inside { OnOk result ((lock : Lock) → IsAt lock [] root.entry
            → AreRulesTold lock faults.new.items) }
        ensures wrong { OnOk result ((lock : Lock) → IsAt lock [] root.entry
            → All (IsFault lock) faults.old.items → All (IsFault lock) faults.new.items) }
    {
        let mut rules = Vec::new(alloc);
        let Some(object) = outermost(root, faults)? else {
            return Ok(Overrides { root, rules });
        };
        add_rules(alloc, Scope::Top, object, &mut rules, faults)?;
        Ok(Overrides { root, rules })
    }

    /// Whether there is no rule.
    pub fn is_empty(&self) -> bool
        ensures { IsTrue result ↔ (self.now.rules.items ≡ []) }
    {
        self.rules.is_empty()
    }

    /// Where the package stands that is meant by a dependency of a package in this scope: in the
    /// first rule that is about the dependency, of those nested in the scope, then the scope
    /// itself, and then the same of what is around it; and if none is, in the scope.
    pub fn inner(
        &self,
        alloc: Global,
        scope: Scope,
        dependency: Dependency<'a>,
    ) -> Result<Scope, AllocError>
        ensures { IfOk result (λ inner. (root : Package) (place : Place)
            → AreAllLaid (Some root) self.now.rules.items
            → IsScopeOf self.now.rules.items scope place
            → IsInnerScope self.now.rules.items (view root.fields.now) dependency.entry place
            inner) }
    {
        match self.found(alloc, scope, dependency) {
            Ok(Some(inner)) => Ok(inner),
            Ok(None) => Ok(scope),
            Err(error) => Err(error),
        }
    }

    // The rule that is found for a dependency of a package in this scope.
    fn found(
        &self,
        alloc: Global,
        scope: Scope,
        dependency: Dependency<'a>,
    ) -> Result<Option<Scope>, AllocError>
        ensures { IfOk result (λ found. (root : Package) (place : Place)
            → AreAllLaid (Some root) self.now.rules.items
            → IsScopeOf self.now.rules.items scope place
            → IsFoundScope self.now.rules.items (view root.fields.now) dependency.entry place
            found) }
    {
        let mut around = scope;
        for _ in 0..self.rules.len() {
            let Some(rule) = self.rule(around) else {
                break;
            };
            if let Some(number) = self.first_in(alloc, around, dependency)? {
                return Ok(Some(Scope::Rule(number)));
            }
            if rule.is_about(alloc, dependency)? {
                return Ok(Some(around));
            }
            around = rule.outer;
        }
        match self.first_in(alloc, Scope::Top, dependency) {
            Ok(Some(number)) => Ok(Some(Scope::Rule(number))),
            Ok(None) => Ok(None),
            Err(error) => Err(error),
        }
    }

    // The number of the first rule that is about a dependency, of those nested in this scope.
    fn first_in(
        &self,
        alloc: Global,
        scope: Scope,
        dependency: Dependency<'a>,
    ) -> Result<Option<usize>, AllocError>
        ensures { IfOk result (IsFirstHit self.now.rules.items scope dependency.entry) }
    {
        for (number, rule) in self.rules.iter().enumerate() {
            if rule.outer.is(scope) && rule.is_about(alloc, dependency)? {
                return Ok(Some(number));
            }
        }
        Ok(None)
    }

    /// What a dependency wants if the package that it means stands in this scope, or `None` if
    /// that is a reference to no dependency of the root project.
    pub(crate) fn wanted(&self, scope: Scope, dependency: Dependency<'a>) -> Option<Wanted<'a>>
        ensures { (root : Package) (place : Place) → self.now.root ≡ Some root
            → IsScopeOf self.now.rules.items scope place
            → IsPutBy (view root.fields.now) place dependency.entry result }
    {
        match self.rule(scope) {
            Some(rule) if rule.name == dependency.name => match rule.replacement {
                Replacement::Nothing => Some(dependency.wanted),
                Replacement::Text(text) => Some(Wanted::Override(text)),
                Replacement::Reference(name) => match self.referenced(name) {
                    Some(text) => Some(Wanted::Override(text)),
                    None => None,
                },
            },
            _ => Some(dependency.wanted),
        }
    }

    // What the root project has for its own dependency of this name.
    fn referenced(&self, name: &str) -> Option<&'a str>
        ensures { MatchOption self.now.root ⊤ (λ root. option_map (λ t. t.now) result
            ≡ referenced (view root.fields.now) name.now) }
    {
        let root = self.root?;
        let text = some_text(root, Field::Development, name);
        text.or(some_text(root, Field::Optional, name))
            .or(some_text(root, Field::Production, name))
            .or(some_text(root, Field::Peer, name))
    }

    fn rule(&self, scope: Scope) -> Option<&Rule<'a>>
        ensures { IsRuleAt self.now.rules.items scope (option_map (λ r. r.now) result) }
    {
        match scope {
            Scope::Top => None,
            Scope::Rule(number) => self.rules.get(number),
        }
    }
}

// The text that a package writes for a name in this field, unless it is empty.
fn some_text<'a>(package: Package<'a>, field: Field, name: &str) -> Option<&'a str>
    ensures { option_map (λ t. t.now) result
        ≡ some_text (written_in field name.now (view «package».entry.fields.now)) }
{
    match package.written(field, name) {
        Some("") => None,
        text => text,
    }
}
