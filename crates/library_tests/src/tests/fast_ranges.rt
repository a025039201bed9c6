// Which range texts the fast reader reads, and that it reads them as the loose one does.

use nodejs_semver::laws::both_readers;
use nodejs_semver::readers::range_fast;
use std::alloc::Global;

const COMMON: &[&str] = &[
    "1.2.3",
    "^1.2.3",
    "^1.0.0alpha",
    "~1.2",
    "~>3.2.1",
    ">=1.0.0 <2.0.0",
    ">1",
    "1.x",
    "*",
    "1.0.0 - 2.0.0",
    "^1 || ^2",
    "1||2",
    "1 ||2",
    "1|| 2",
    "=1 =1",
    "1.2.x-beta",
    "1 - 2",
    "1.2 - 3.4.5",
    "1.2.3 - 3.4",
    "* - 2",
    "<=2.0",
    "2.*.*",
    ">1.x.3",
    ">x",
    "=1.x.3",
    "1.2.3beta",
    "~1",
    "~1.2.3-beta",
    "^0",
    "^0.0",
    "^0.0.3-beta",
    "^0.2.3",
    ">=0.2.3 || <0.0.1",
    "1 || 2 || 3",
    "x",
    "X.x.*",
    "<1.2.3-a.1",
    "<=1",
    ">=*",
    "~>1 || >=2.0.0-0",
    "1.2.3--",
    "1.0.0 - 1.0.x",
    ">=3.3.0-beta.1 <3.4.0-beta.3",
    "^1.2||>=3.0.0 <4",
];

const OTHERS: &[&str] = &[
    "",
    " ",
    "||",
    "foo 1.2.3",
    ">2 <1",
    "1.2.3+a",
    "v1.2.3",
    "1 2",
    "^1  || ^2",
    "^1 ||",
    "1 - x",
    "> 1",
    "^1 ^1",
    " ^1",
    "^1 ",
    "1.2 - 1.4 >=1.3.0",
    "- 10",
    "=1.2.3+a",
    "~ > 1.2.3",
    "^1.2.3+build",
    "^1.x.3",
    "=x",
    "~x",
    "==1",
    "> 1foo",
    ">1|2",
    "x - x",
    " 1.2.3",
    "1.2.3 ",
    " 1 || 2",
    "1 || 2 ",
    "1  || 2",
    "1 ||  2",
    "1 ||",
    "|| 1",
    "1 ||| 2",
    "1 | 2",
    "1 || || 2",
    "1.2.x+b",
    "^v1",
    "^x",
    "2 - 1",
    ">= 1",
    "~ 1",
    "~> 1",
    "^ 1",
    ">=1 <2 <3",
    ">=1  <2",
    "^1 >2",
    ">1 2",
    "1 -2",
    "1 - 2 - 3",
    "1 - 2 >=1",
    "1.2.3-+",
    "1.2.3.4",
    "1.2.3-",
    "1.2.3-a..b",
    "1.2.",
    "1.2.9007199254740992",
    ">",
    "foo",
    "1;2",
];

fn is_read_alike(alloc: Global, text: &str) -> bool {
    match both_readers(alloc, text) {
        Ok(Some((fast, loose))) => loose == Some(fast),
        _ => false,
    }
}

fn is_not_read(alloc: Global, text: &str) -> bool {
    match range_fast(alloc, text) {
        Ok(None) => true,
        _ => false,
    }
}

#[test]
fn range_fast_reads_common_texts(rt: HostRuntime) {
    for &text in COMMON {
        assert!(rt; is_read_alike(rt.alloc(), text), "{text:?}");
    }
}

#[test]
fn range_fast_reads_no_other_text(rt: HostRuntime) {
    for &text in OTHERS {
        assert!(rt; is_not_read(rt.alloc(), text), "{text:?}");
    }
}
