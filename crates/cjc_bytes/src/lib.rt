//! Lists and bytes in memory, reading and writing them big-endian, the formats of files as data, access flags, and
//! broken rules with their places and their order. It knows no format and no rule of its own.
#![tactic(auto)]

mod breaks;
mod cursor;
mod descriptor;
mod fault;
mod flags;
mod order;
mod output;
mod row;
mod settings;
mod stop;
mod text;

pub use breaks::{
    Break, BrokenAt, Part, PlaceRef, RulePlace, answer, broken, first, refusal, refused, refused_at,
};
pub use cursor::Cursor;
pub use descriptor::{BadDesc, Desc, Kind, Types, descriptors};
pub use fault::{Fault, MemberId, Place, Refusal, Rule};
pub use flags::{
    ACC_ABSTRACT, ACC_ANNOTATION, ACC_ENUM, ACC_FINAL, ACC_INTERFACE, ACC_NATIVE, ACC_PRIVATE,
    ACC_PROTECTED, ACC_PUBLIC, ACC_SHAREABLE, ACC_STATIC, ACC_STRICT, ACC_SUPER, ACC_SYNCHRONIZED,
    ACC_SYNTHETIC, ACC_TRANSIENT, ACC_VOLATILE, access_flags, has, is_abstract, is_final,
    is_interface, is_private, is_protected, is_public, is_static,
};
pub use order::{FileKey, FileRef, GroupKey, file_of};
pub use output::Out;
pub use row::{Bytes, Row};
pub use settings::{AppletLine, FileLine, Settings};
pub use stop::{NoMemory, Short, Stop};
pub use text::{Line, Word, decimal, kept_lines, lines_and_words, short_decimal, words};
