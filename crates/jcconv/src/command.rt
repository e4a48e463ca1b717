//! The forms of the words.

ghost use Rattle.std.specs.Prelude.{◌≡◌, option_map};
ghost use Rattle.jcconv.specs.Request.{request};
ghost use Rattle.jcconv.specs.Asked.{asked};

use cjc_bytes::Bytes;

/// What is asked for: `convert LIST DIR`, the only form so far.
#[derive(Clone, Copy)]
pub struct Asked<'a> {
    pub list: &'a [u8],
    pub dir: &'a [u8],
}

/// What the words ask for, where they are of a form.
pub fn asked_by(words: &[Bytes]) -> Option<Asked<'_>>
    ensures { option_map asked result ≡ request words.now }
{
    match words {
        [verb, list, dir] if verb.items() == b"convert".as_slice() => Some(Asked {
            list: list.items(),
            dir: dir.items(),
        }),
        _ => None,
    }
}
