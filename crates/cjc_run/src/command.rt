//! The forms of the words, and the command that each asks for. `run` calls it. It knows no file.

ghost use Rattle.std.specs.Prelude.{◌≡◌, ◌≤◌, option_and_then, option_map, IfSome};
ghost use Rattle.cjc_run.specs.Request.{count, make, number, request, size};
ghost use Rattle.cjc_run.specs.Asked.{HasSize, asked};

use cjc_shelf::bytes::{Bytes, short_decimal};

/// What is asked for.
#[derive(Clone, Copy)]
pub(crate) enum Asked<'a> {
    /// `convert LIST DIR`
    Convert {
        list: &'a [u8],
        dir: &'a [u8],
    },
    /// `check LIST DIR`
    Check {
        list: &'a [u8],
        dir: &'a [u8],
    },
    /// `jvm LIST SCRIPT N`
    Jvm {
        list: &'a [u8],
        script: &'a [u8],
        n: u32,
    },
    /// `card LIST DIR SCRIPT N`
    Card {
        list: &'a [u8],
        dir: &'a [u8],
        script: &'a [u8],
        n: u32,
    },
    /// `make NUMBER SIZE`
    Make {
        number: u32,
        size: u32,
    },
    /// `verify LIST DIR`
    Verify {
        list: &'a [u8],
        dir: &'a [u8],
    },
    /// `link GROUP SCRIPT N`
    Link {
        group: &'a [u8],
        script: &'a [u8],
        n: u32,
    },
    /// `linkjvm GROUP SCRIPT N`
    LinkJvm {
        group: &'a [u8],
        script: &'a [u8],
        n: u32,
    },
    /// `compat OLD NEW`
    Compat {
        old: &'a [u8],
        new: &'a [u8],
    },
}

/// How many instructions a word asks for.
fn count(word: &Bytes) -> Option<u32>
    ensures { result ≡ count word.now }
{
    short_decimal(word.items(), 10, 3_000_000_000)
}

/// The number that a package is made from.
fn number(word: &Bytes) -> Option<u32>
    ensures { result ≡ number word.now }
{
    short_decimal(word.items(), 10, 4_294_967_295)
}

/// How many classes a package is made of.
fn size(word: &Bytes) -> Option<u32>
    ensures size { result ≡ size word.now }
    ensures least { IfSome result (λ n. 1 ≤ n) }
    ensures greatest { IfSome result (λ n. n ≤ 250) }
{
    match short_decimal(word.items(), 3, 250) {
        Some(n) => { if n == 0 { None } else { Some(n) } }
        None => None,
    }
}

/// The package that is to be made, where the words are a number and a size.
fn package_asked<'a>(first: &Bytes, second: &Bytes) -> Option<Asked<'a>>
    ensures asked { option_map asked result ≡ option_and_then (λ n. option_map (make n) (size second.now))
        (number first.now) }
    ensures size { IfSome result HasSize }
{
    match number(first) {
        Some(number) => match size(second) {
            Some(size) => Some(Asked::Make { number, size }),
            None => None,
        },
        None => None,
    }
}

/// What the words ask for, where they are of a form.
pub(crate) fn asked_by(words: &[Bytes]) -> Option<Asked<'_>>
    ensures asked { option_map asked result ≡ request words.now }
    ensures size { IfSome result HasSize }
{
    match words {
        [verb, list, dir] if verb.items() == b"convert".as_slice() => Some(Asked::Convert {
            list: list.items(),
            dir: dir.items(),
        }),
        [verb, list, dir] if verb.items() == b"check".as_slice() => Some(Asked::Check {
            list: list.items(),
            dir: dir.items(),
        }),
        [verb, number, size] if verb.items() == b"make".as_slice() => package_asked(number, size),
        [verb, list, dir] if verb.items() == b"verify".as_slice() => Some(Asked::Verify {
            list: list.items(),
            dir: dir.items(),
        }),
        [verb, old, new] if verb.items() == b"compat".as_slice() => Some(Asked::Compat {
            old: old.items(),
            new: new.items(),
        }),
        [verb, list, script, n] if verb.items() == b"jvm".as_slice() => {
            match count(n) {
                Some(n) => Some(Asked::Jvm {
                    list: list.items(),
                    script: script.items(),
                    n,
                }),
                None => None,
            }
        }
        [verb, group, script, n] if verb.items() == b"link".as_slice() => {
            match count(n) {
                Some(n) => Some(Asked::Link {
                    group: group.items(),
                    script: script.items(),
                    n,
                }),
                None => None,
            }
        }
        [verb, group, script, n] if verb.items() == b"linkjvm".as_slice() => {
            match count(n) {
                Some(n) => Some(Asked::LinkJvm {
                    group: group.items(),
                    script: script.items(),
                    n,
                }),
                None => None,
            }
        }
        [verb, list, dir, script, n] if verb.items() == b"card".as_slice() => match count(n) {
            Some(n) => Some(Asked::Card {
                list: list.items(),
                dir: dir.items(),
                script: script.items(),
                n,
            }),
            None => None,
        },
        _ => None,
    }
}
