//! The frame of a method in int mode: where its locals stand, and what goes before its first instruction.

ghost use Rattle.std.specs.Prelude.{◌≡◌, ◌+◌, ◌*◌, ◌<◌, ◌≤◌, ◌++◌, ◌∷◌, [], length, map, IfOk, OnOk};
ghost use Rattle.cjc_int_mode.specs.Script.Sorts.{signature_of, sort_of};
ghost use Rattle.cjc_int_mode.specs.CardSemantics.Bytecode.Arguments.{widths};
ghost use Rattle.cjc_ncode.specs.IntCode.IntCode.{first_word, nargs, prologue, scratch};
ghost use Rattle.cjc_int_narrow.specs.Working.Frames.{frame_of};
ghost use Rattle.cjc_int_mode.specs.Written.{params_by};
ghost use Rattle.cjc_int_narrow.specs.Working.Moves.{is_int, loaded, moved_all, moved_by};

use crate::kinds::{Kept, kept_of, params_of, put_widened, returns_int};
use crate::numbers::{load, store};
use cjc_int_mode::descriptors::parsed;
use cjc_narrow::written::local;
use cjc_ncode::NInsn;
use cjc_ncode::bytes::{Desc, NoMemory, Row, is_static};
use cjc_ncode::capread::card;
use std::marker::Model;

/// The frame of a method.
pub(crate) struct Frame<'a> {
    class: &'a [u8],
    flags: u16,
    desc: &'a [u8],
    max_locals: u16,
    /// The words of the arguments.
    words: u8,
    returns_int: bool,
}

impl Drop for Frame<'_> {
    fn drop(self) {
        let Frame {
            class: _class,
            flags: _flags,
            desc: _desc,
            max_locals: _max_locals,
            words: _words,
            returns_int: _returns_int,
        } = self;
    }
}

impl<'a> Model for Frame<'a> {
    ghost use Rattle.std.specs.Prelude.{◌≡◌};
    ghost use Rattle.cjc_ncode.specs.IntCode.IntCode.{Frame as Words, nargs};
    ghost use Rattle.cjc_int_narrow.specs.Working.Frames.{frame_of};
    ghost use Rattle.cjc_int_narrow.specs.Working.Moves.{is_int};

    ghost Value = { Words };

    ghost view = { λ f. frame_of f.class.now f.flags f.desc.now f.max_locals };

    ghost invariant = { λ f. let view = frame_of f.class.now f.flags f.desc.now f.max_locals in (f.words ≡ nargs view)
        × ((f.max_locals ≡ view.max_locals) × (f.returns_int ≡ is_int view.result)) };
}

/// The load of an argument at its word.
fn loaded(kept: Kept, word: u8) -> NInsn
    ensures { loaded kept word ≡ result ∷ [] }
{
    if kept.is_short {
        local(card::SLOAD_0, card::SLOAD, u16::from(word))
    } else {
        load(kept.is_reference, word)
    }
}

/// Puts what moves an argument to its local at the end.
fn put_moved(out: &mut Row<NInsn>, kept: Kept, word: u8, to: u8) -> Result<(), NoMemory>
    ensures { OnOk result (out.new ≡ out.old ++ moved_by kept word to) }
{
    out.push(loaded(kept, word))?;
    put_widened(out, kept.is_short)?;
    out.push(store(kept.is_reference, to))
}

/// The same for the parameters of a descriptor, the first of which begins at a word, and goes to another.
#[tactic(auto, using(crate::proofs::Moves::moved_next, crate::proofs::Moves::moved_end))]
fn put_parameters(
    out: &mut Row<NInsn>,
    desc: &Desc<'_>,
    first: u8,
    local: u8,
) -> Result<(), NoMemory>
    requires words { first + widths (map sort_of desc.now.params) ≤ 255 }
    requires locals { local + 2 * length desc.now.params ≤ 255 }
    ensures { OnOk result (out.new ≡ out.old ++ moved_all first local (map sort_of desc.now.params)) }
{
    let mut word = first;
    let mut to = local;
    for (kind, class) in desc.parameters() {
        let kept = kept_of(kind, class)?;
        put_moved(out, kept, word, to)?;
        word += kept.words;
        to += 2;
    }
    Ok(())
}

/// The same for the parameters of a method with this descriptor.
fn put_all(out: &mut Row<NInsn>, desc: &[u8], first: u8, local: u8) -> Result<(), NoMemory>
    requires words { first + widths (params_by (signature_of desc.now)) ≤ 255 }
    requires locals { local + 2 * length (params_by (signature_of desc.now)) ≤ 255 }
    ensures { OnOk result (out.new ≡ out.old ++ moved_all first local (params_by (signature_of desc.now))) }
{
    match parsed(desc)? {
        Some(parts) => {
            if parts.is_method() {
                put_parameters(out, &parts, first, local)
            } else {
                Ok(())
            }
        }
        None => Ok(()),
    }
}

impl<'a> Frame<'a> {
    /// That of a method of a class, whose arguments are so many words.
    #[tactic(auto, unfolding(crate::specs::Working::Frames::frame_of))]
    pub(crate) fn new(
        class: &'a [u8],
        flags: u16,
        desc: &'a [u8],
        max_locals: u16,
        words: u8,
    ) -> Result<Frame<'a>, NoMemory>
        requires { words ≡ nargs (frame_of class.now flags desc.now max_locals) }
        ensures { IfOk result (λ f. f ≡ frame_of class.now flags desc.now max_locals) }
    {
        let returns_int = returns_int(desc)?;
        Ok(Frame {
            class,
            flags,
            desc,
            max_locals,
            words,
            returns_int,
        })
    }

    /// The words of the arguments.
    pub(crate) fn words(&self) -> u8
        ensures { result ≡ nargs self.now }
    {
        self.words
    }

    /// The locals of the class file.
    pub(crate) fn max_locals(&self) -> u16
        ensures { result ≡ self.now.max_locals }
    {
        self.max_locals
    }

    /// The first word of a local of the class file.
    pub(crate) fn first_word(&self, local: u16) -> u8
        requires { first_word self.now local < 256 }
        ensures { result ≡ first_word self.now local }
    {
        self.words + 2 * local as u8
    }

    /// The word behind those of the locals.
    pub(crate) fn scratch(&self) -> u8
        requires { scratch self.now 0 < 256 }
        ensures { result ≡ scratch self.now 0 }
    {
        self.words + 2 * self.max_locals as u8
    }

    /// How many parameters there are, the receiver among them.
    #[tactic(auto, unfolding(crate::specs::Working::Frames::frame_of))]
    pub(crate) fn params(&self) -> Result<u32, NoMemory>
        ensures { IfOk result (λ n. n ≡ length self.now.params) }
    {
        let params = params_of(self.desc)?;
        if is_static(self.flags) {
            return Ok(params);
        }
        match params.checked_add(1) {
            Some(all) => Ok(all),
            None => Err(NoMemory),
        }
    }

    /// Whether the method returns an int.
    pub(crate) fn returns_int(&self) -> bool
        ensures { result ≡ is_int self.now.result }
    {
        self.returns_int
    }

    /// Puts what moves the arguments to the locals at the end.
    #[tactic(auto, unfolding(crate::specs::Working::Frames::frame_of))]
    pub(crate) fn put_prologue(&self, out: &mut Row<NInsn>) -> Result<(), NoMemory>
        requires { let f = self.now in nargs f + 2 * length f.params ≤ 255 }
        ensures { OnOk result (out.new ≡ out.old ++ prologue self.now) }
    {
        if is_static(self.flags) {
            return put_all(out, self.desc, 0, self.words);
        }
        let receiver = Kept {
            is_short: false,
            is_reference: true,
            words: 1,
        };
        put_moved(out, receiver, 0, self.words)?;
        put_all(out, self.desc, 1, self.words + 2)
    }
}
