//! The files that a command reads, as they stand in the order of refusals, and which file a class of the package has.
//! Every crate that places a broken rule numbers files by it. It knows no rule.

ghost use Rattle.std.specs.Prelude.{◌≡◌};
ghost use Rattle.cjc_bytes.specs.Order.{file_number, group_number, file_of};
ghost use Rattle.cjc_bytes.specs.Told.{file_place_of};

use crate::settings::FileLine;

/// A file by its place in the order of refusals.
#[derive(Clone, Copy)]
pub enum FileKey {
    /// The list.
    List,
    /// The file of the list's line of this index, among the lines that name files.
    Line(usize),
    /// The component of this tag.
    Component(u8),
    /// The script.
    Script,
}

impl FileKey {
    /// The number by which files are compared.
    pub fn number(self) -> u128
        ensures { result ≡ file_number self }
    {
        match self {
            FileKey::List => 0,
            FileKey::Line(index) => index as u128 + 1,
            FileKey::Component(tag) => 0x1_0000_0000_0000_0000 + u128::from(tag),
            FileKey::Script => 0x1_0000_0000_0000_0100,
        }
    }
}

/// A file of a command over several packages, by its place in the order of refusals.
#[derive(Clone, Copy)]
pub enum GroupKey {
    /// The file that names the packages.
    Group,
    /// A file of the package of this index.
    Of(u8, FileKey),
    /// The script, which all packages share.
    Script,
}

impl GroupKey {
    /// The number by which files are compared: package by package, and within one by `FileKey::number`.
    pub fn number(self) -> u128
        ensures { result ≡ group_number self }
    {
        match self {
            GroupKey::Group => 0,
            GroupKey::Of(package, file) => (u128::from(package) + 1) * 0x2_0000_0000_0000_0000
                + file.number(),
            GroupKey::Script => 0x202_0000_0000_0000_0000,
        }
    }
}

/// A file, and its name as a refusal tells it.
#[derive(Clone, Copy)]
pub struct FileRef<'w> {
    pub key: FileKey,
    pub name: &'w [u8],
}

/// The file of the package's class of this number. Where no line is its, the file stands behind all lines and has no
/// name.
pub fn file_of(lines: &[FileLine], number: usize) -> FileRef<'_>
    ensures { file_place_of result ≡ file_of lines.now number }
{
    let mut left = number;
    for (index, line) in lines.iter().enumerate() {
        if line.class_file {
            if left == 0 {
                return FileRef {
                    key: FileKey::Line(index),
                    name: line.name.items(),
                };
            }
            left -= 1;
        }
    }
    FileRef {
        key: FileKey::Line(lines.len()),
        name: &[],
    }
}
