//! `Package`: components beside the package that they are said to be of, with the tables by which both are looked into.
//! Made once by `verify`; what the rules ask.

ghost use Rattle.std.specs.Prelude.{◌≡◌, ◌==◌, option_map, position, slice_get, IfOk};
ghost use Rattle.std.specs.List.{find};
ghost use Rattle.std.specs.Option.{option_copied};
ghost use Rattle.cjc_card_acts.specs.CardFrame.Objects.{class_of};
ghost use Rattle.cjc_card_acts.specs.CardSemantics.Machine.Classes.{class_of as class_by_ref};
ghost use Rattle.cjc_verify.specs.Named.{entry_of, exported};
ghost use Rattle.cjc_verify.specs.Pairs.{class_at, method_at, nibbles_of};
ghost use Rattle.cjc_verify.specs.Working.Methods.{facts_of};

use crate::described::card_nibbles;
use crate::methods::{KnownMethod, method_at};
use cjc_bytes::{Bytes, NoMemory};
use cjc_capread::{ClassRef, PoolEntry};
use cjc_card_calls::card_frame::heap::Class;
use cjc_card_calls::card_link::Tables;
use cjc_card_calls::check_index::lookup::Parts;
use cjc_card_calls::files::Files;
use cjc_card_calls::lines::Lines;
use cjc_classes::class_info::ClassRefs;
use cjc_classes::tokens::Tokens;
use cjc_world::classfile::ClassTree;
use cjc_world::export_file::ExportClass;
use cjc_world::{StaticImage, World};
use std::alloc::Global;
use std::marker::Model;

/// Components beside their package.
#[derive(Drop)]
pub(crate) struct Package<'a> {
    pub(crate) world: &'a World<'a>,
    pub(crate) tokens: &'a Tokens,
    pub(crate) image: &'a StaticImage,
    pub(crate) parts: &'a Parts<'a>,
    pub(crate) tables: &'a Tables<'a>,
    pub(crate) lines: &'a Lines,
    pub(crate) files: &'a Files<'a>,
    /// The class_ref of each name of a class.
    pub(crate) refs: &'a ClassRefs,
    /// The numbers of the classes in the order of Class.
    pub(crate) order: &'a [u32],
    /// Where the infos of Class begin, in that order.
    pub(crate) starts: &'a [u64],
    /// The methods of all classes, in the order of Descriptor.
    pub(crate) methods: &'a [KnownMethod],
}

impl<'a> Model for Package<'a> {
    ghost use Rattle.cjc_verify.specs.Pairs.{Pair};
    ghost use Rattle.cjc_verify.specs.Working.Ready.{AreReady, pair_by};

    ghost Value = { Pair };

    ghost view = { λ x. pair_by x.world.now x.tokens.now x.image.now x.parts.now x.tables.now };

    ghost invariant = { λ x. AreReady (pair_by x.world.now x.tokens.now x.image.now x.parts.now x.tables.now)
        x.parts.now x.tables.now x.lines.now x.files.now x.refs.now x.order.now x.starts.now x.methods.now };
}

// The class of an export file by its token.
fn class_with(classes: &[ExportClass], token: u8) -> Option<&ExportClass>
    ensures { option_copied result ≡ find (λ c. c.token == token) classes.now }
{
    classes.iter().find(|class| class.token == token)
}

// The place of an offset.
fn place_of(starts: &[u64], offset: u64) -> Option<usize>
    ensures { result ≡ position (λ at. at == offset) starts.now }
{
    starts.iter().position(|start| *start == offset)
}

// The number at a place.
fn number_at(order: &[u32], place: usize) -> Option<u32>
    ensures { result ≡ slice_get order.now place }
{
    order.get(place).copied()
}

// The flags of the class of a number.
fn flags_of(classes: &[ClassTree<'_>], number: u32) -> Option<u16>
    ensures { result ≡ option_map (λ c. c.flags) (slice_get classes.now number) }
{
    match classes.get(number as usize) {
        Some(class) => Some(class.flags),
        None => None,
    }
}

impl<'a> Package<'a> {
    /// The entry of an index.
    pub(crate) fn entry(&self, index: usize) -> Option<PoolEntry>
        ensures { result ≡ entry_of self.now index }
    {
        self.parts.pool.entries.items().get(index).copied()
    }

    /// The class of an export file by the tokens of its package and its own.
    pub(crate) fn exported(&self, import: u8, class: u8) -> Option<&'a ExportClass>
        ensures { option_copied result ≡ exported self.now import class }
    {
        match self.world.exports().items().get(usize::from(import)) {
            Some(tree) => class_with(tree.classes.items(), class),
            None => None,
        }
    }

    /// The flags of the class of the package whose info begins at an offset.
    #[tactic(auto, using(crate::proofs::Known::flags_found))]
    pub(crate) fn flags_at(&self, offset: u64) -> Option<u16>
        ensures { result ≡ option_map (λ c. c.flags) (class_at self.now offset) }
    {
        match place_of(self.starts, offset) {
            Some(place) => match number_at(self.order, place) {
                Some(number) => flags_of(self.world.classes().items(), number),
                None => None,
            },
            None => None,
        }
    }

    /// The method of a class whose header begins at an offset.
    #[tactic(auto, using(crate::proofs::Known::found_among))]
    pub(crate) fn method_at(&self, offset: u64) -> Option<&'a KnownMethod>
        ensures { option_copied result ≡ option_map (facts_of self.now) (method_at self.now offset) }
    {
        method_at(self.methods, offset)
    }

    /// The nibbles of a descriptor; none where the card has no values of one of its types.
    pub(crate) fn nibbles(&self, alloc: Global, desc: &[u8]) -> Result<Option<Bytes>, NoMemory>
        ensures { IfOk result (λ nibbles. nibbles ≡ nibbles_of self.now desc.now) }
    {
        card_nibbles(alloc, self.refs, desc)
    }

    /// The class of a class_ref, where there is one.
    pub(crate) fn class(&self, class: ClassRef) -> Option<Class>
        ensures { option_map class_of result ≡ class_by_ref self.now.loaded 0 class }
    {
        self.tables.class_in(0, class)
    }
}
