//! What is kept of one package of a group for all look-ups, and what is found in it at once: infos, names, methods,
//! instructions, what it imports and what it exports.

ghost use Rattle.std.specs.Prelude.{◌≡◌, ◌≤◌, ◌<◌, ◌+◌, ◌*◌, ◌^◌, ℕ, List, length, map, option_map, option_and_then};
ghost use Rattle.std.specs.Prelude.{slice_get, IfOk, IfSome};
ghost use Rattle.std.specs.Option.{option_copied};
ghost use Rattle.std.specs.Str.{bytes_eq};
ghost use Rattle.cjc_card_semantics.specs.CapRead.Decoder.Decoded.{IsAtFront, header_of, instruction_of};
ghost use Rattle.cjc_card_semantics.specs.Machine.Classes.{info_at, infos, number_named, number_of, offset_of};
ghost use Rattle.cjc_card_semantics.specs.Machine.Methods.{methods_begin, start_in};
ghost use Rattle.cjc_card_frame.specs.Codes.{bytes_at, insn_at};
ghost use Rattle.cjc_card_frame.specs.Kinds.{start_of, IsDecoded};
ghost use Rattle.cjc_check_index.specs.CheckRules.Complete.{class_info_size};
ghost use Rattle.cjc_card_link.specs.Described.{started};
ghost use Rattle.cjc_card_link.specs.Group.{import_of, part_with};
ghost use Rattle.cjc_card_link.specs.Indices.{first_place, place_under};
ghost use Rattle.cjc_card_link.specs.Infos.{info_by};
ghost use Rattle.cjc_card_link.specs.Names.{class_names_of};

use crate::described::lengths;
use crate::indices::{Numbers, Places};
use crate::infos::{Info, Infos};
use crate::names::ClassNames;
use crate::part::{Import, Part};
use cjc_card_frame::fetch::{Code as Bytes, insn_at};
use cjc_card_frame::parts::{Code, Start};
use cjc_card_semantics::capread::decoder::{Header, Insn, method_header};
use cjc_card_semantics::capread::{ClassInfo, ExportedClass, Method, PoolEntry};
use cjc_check_index::bytes::{NoMemory, Row};
use std::alloc::Global;
use std::marker::Model;

// More handlers than there are.
const TOO_MANY_HANDLERS: usize = 1 << 28;

/// A package, and tables made once.
pub(crate) struct Package<'a> {
    part: Part<'a>,
    imports: Row<Import>,
    /// Where its methods begin, behind the handlers.
    begin: u32,
    infos: Infos<'a>,
    /// The bytes of the code of methods, by the offsets of their headers.
    lengths: Numbers,
    /// The places of classes, by their names.
    own: Places<'a>,
}

impl Drop for Package<'_> {
    fn drop(self) {
        let Package {
            part: _part,
            imports: _imports,
            begin: _begin,
            infos: _infos,
            lengths: _lengths,
            own: _own,
        } = self;
    }
}

impl<'a> Model for Package<'a> {
    ghost use Rattle.std.specs.Prelude.{map};
    ghost use Rattle.cjc_card_semantics.specs.Machine.Loaded.{Part as Linked};
    ghost use Rattle.cjc_card_link.specs.Group.{import_of, part_with};
    ghost use Rattle.cjc_card_link.specs.Packages.{IsKept};

    ghost Value = { Linked };

    ghost view = { λ p. part_with (map import_of p.imports) p.part };

    ghost invariant = { λ p. IsKept p.part p.begin p.infos p.lengths p.own };
}

// Keeps the places of classes under their names.
fn places_of<'a>(alloc: Global, classes: &'a [ClassNames]) -> Result<Places<'a>, NoMemory>
    ensures { IfOk result (λ r. (x : List ℕ) → place_under r x ≡ first_place (λ c. bytes_eq c.name x) classes.now) }
{
    let mut places = Places::new(alloc);
    let mut number = 0;
    for class in classes {
        places.note(class.name.items(), number)?;
        number += 1;
    }
    Ok(places)
}

// Where methods begin, behind the number of handlers and the handlers. No memory is there for 2^28 of them.
fn begin_of(method: &Method) -> Result<u32, NoMemory>
    ensures { IfOk result (λ begin. begin ≡ 1 + 8 * length method.now.handlers) }
{
    let count = method.handlers.items().len();
    if count >= TOO_MANY_HANDLERS {
        return Err(NoMemory);
    }
    Ok(1 + 8 * count as u32)
}

// The bytes of methods from an offset on, where the first of them has another.
fn bytes_at<'a>(methods: &'a [u8], begin: u32, at: u64) -> &'a [u8]
    ensures { result.now ≡ bytes_at methods.now begin at }
{
    let begin = u64::from(begin);
    if at < begin || at - begin > methods.len() as u64 {
        &methods[methods.len()..]
    } else {
        &methods[(at - begin) as usize..]
    }
}

// How a method begins.
fn start_at(part: u32, offset: u64, header: Header, length: u64) -> Start
    requires offset { offset < 2 ^ 30 }
    requires header { header.size ≤ 4 }
    requires length { length < 2 ^ 30 }
    ensures { start_of result ≡ started part offset (header_of header) length }
{
    let first = offset as u32 + header.size as u32;
    let code = Code {
        part,
        room: header.max_stack,
        first,
        end: first + length as u32,
    };
    Start {
        code,
        at: first,
        nargs: header.nargs,
        max_locals: header.max_locals,
        is_abstract: header.is_abstract,
    }
}

// The names with a number.
fn names_at(classes: &[ClassNames], number: u64) -> Option<&ClassNames>
    ensures { option_copied result ≡ slice_get classes.now number }
{
    classes.get(number as usize)
}

// The import of a package token.
fn import_at(imports: &[Import], token: u32) -> Option<Import>
    ensures { result ≡ slice_get imports.now token }
{
    imports.get(token as usize).copied()
}

// What Export lists under a class token.
fn exported_at(exports: &[ExportedClass], token: u8) -> Option<&ExportedClass>
    ensures { option_copied result ≡ slice_get exports.now token }
{
    exports.get(usize::from(token))
}

impl<'a> Package<'a> {
    /// The tables of a package with these imports.
    pub(crate) fn new(
        alloc: Global,
        part: Part<'a>,
        imports: Row<Import>,
    ) -> Result<Package<'a>, NoMemory>
        requires { class_info_size part.class.now < 2 ^ 32 }
        ensures { IfOk result (λ p. p ≡ part_with (map import_of imports) part.entry) }
    {
        let begin = begin_of(part.method)?;
        let infos = Infos::new(alloc, part.class)?;
        let lengths = lengths(alloc, &infos, part.descriptor)?;
        let own = places_of(alloc, part.classes)?;
        Ok(Package {
            part,
            imports,
            begin,
            infos,
            lengths,
            own,
        })
    }

    /// Its components.
    pub(crate) fn part(&self) -> Part<'a>
        ensures { part_with self.now.imports result ≡ self.now }
    {
        self.part
    }

    /// Its constant pool.
    pub(crate) fn pool(&self) -> &'a [PoolEntry]
        ensures { result.now ≡ self.now.pool }
    {
        self.part.pool
    }

    /// Its Class.
    pub(crate) fn class(&self) -> &'a ClassInfo
        ensures { result.now ≡ self.now.class }
    {
        self.part.class
    }

    /// How many infos there are.
    pub(crate) fn count(&self) -> usize
        ensures { result ≡ length (infos self.now) }
    {
        self.infos.count()
    }

    /// The info at an offset.
    pub(crate) fn info(&self, offset: u64) -> Option<Info<'a>>
        ensures at { option_map info_by result ≡ info_at self.now offset }
        ensures small { IfSome result (λ i. offset < 2 ^ 32) }
    {
        self.infos.at(offset)
    }

    /// The offset of the info with a number.
    pub(crate) fn offset_of(&self, number: u64) -> Option<u64>
        ensures offset { result ≡ offset_of self.now number }
        ensures small { IfSome result (λ offset. offset < 2 ^ 32) }
    {
        self.infos.offset_of(number)
    }

    /// The names of the class at an offset.
    pub(crate) fn names(&self, offset: u64) -> Option<&'a ClassNames>
        ensures { option_map class_names_of (option_copied result) ≡ option_and_then (slice_get self.now.classes)
            (number_of self.now offset) }
    {
        match self.infos.number_of(offset) {
            Some(number) => names_at(self.part.classes, number),
            None => None,
        }
    }

    /// The offset of the class of a name.
    pub(crate) fn offset_named(&self, name: &[u8]) -> Option<u64>
        ensures offset { result ≡ option_and_then (offset_of self.now) (number_named self.now.classes name.now) }
        ensures small { IfSome result (λ offset. offset < 2 ^ 32) }
    {
        match self.own.get(name) {
            Some(number) => self.infos.offset_of(number),
            None => None,
        }
    }

    /// What a package token means.
    pub(crate) fn import(&self, token: u32) -> Option<Import>
        ensures { option_map import_of result ≡ slice_get self.now.imports token }
    {
        import_at(self.imports.items(), token)
    }

    /// What Export lists of a class.
    pub(crate) fn exported(&self, token: u8) -> Option<&'a ExportedClass>
        ensures { option_copied result ≡ slice_get self.now.exports token }
    {
        exported_at(self.part.exports, token)
    }

    /// The method whose header stands at an offset; the package has this number.
    pub(crate) fn start(&self, part: u32, offset: u64) -> Option<Start>
        ensures { option_map start_of result ≡ start_in part offset self.now }
    {
        let bytes = bytes_at(self.part.method.methods.items(), self.begin, offset);
        let Some(header) = method_header(bytes) else {
            return None;
        };
        let Some(length) = self.lengths.get(offset) else {
            return None;
        };
        Some(start_at(part, offset, header, length))
    }

    /// The instruction at an offset, where all of it lies in its method's code.
    pub(crate) fn insn_at(&self, code: Code, at: u32) -> Option<Insn<'a>>
        ensures is { option_map instruction_of result ≡ insn_at self.now.method.methods (methods_begin self.now)
            code.first code.end at }
        ensures within { IfSome result (λ i. at + i.size ≤ code.end) }
        ensures decoded { IfSome result (λ i. IsDecoded (instruction_of i)) }
        ensures front { IfSome result (λ i. (bytes : List ℕ) × IsAtFront i bytes) }
    {
        let bytes = Bytes {
            methods: self.part.method.methods.items(),
            begin: self.begin,
            first: code.first,
            end: code.end,
        };
        insn_at(bytes, at as usize)
    }
}
