//! The names of the instance fields of a class, by token (Java Card Virtual Machine Specification 2.2.2,
//! section 4.3.7.5). Called by `classes`.

ghost use Rattle.std.specs.Prelude.{◌≡◌, ◌++◌, map, IfOk, OnOk};
ghost use Rattle.cjc_classes.specs.LowerTokens.Fields.{is_instance};
ghost use Rattle.cjc_card_link.specs.Names.{field_name_of};
ghost use Rattle.cjc_pairing.specs.CardNames.Working.Classes.{each_from, field_at, field_where};

use cjc_card_link::FieldName;
use cjc_card_link::classfile::{ClassTree, FieldTree};
use cjc_classes::bytes::{Bytes, NoMemory, Row, is_static};
use cjc_classes::tokens::Tokens;
use cjc_classes::world::Found;
use std::alloc::Global;

fn is_instance(field: &FieldTree) -> bool
    ensures { result ≡ is_instance field.now }
{
    !is_static(field.flags)
}

/// The field at a place of the class of a number; 0xFF is no token.
fn field_name(
    alloc: Global,
    tokens: &Tokens,
    number: u32,
    place: u32,
    field: &FieldTree,
) -> Result<FieldName, NoMemory>
    ensures { IfOk result (λ f. field_name_of f ≡ field_at tokens.now number place field.now) }
{
    let name = Bytes::copy_of(alloc, field.name.items())?;
    let desc = Bytes::copy_of(alloc, field.desc.items())?;
    let token = tokens.member_token(Found {
        imported: false,
        class: number,
        member: place,
    });
    Ok(FieldName {
        token: token.unwrap_or(0xFF),
        name,
        desc,
    })
}

/// Puts a field at the end, where it is an instance field.
fn put_field(
    alloc: Global,
    names: &mut Row<FieldName>,
    tokens: &Tokens,
    number: u32,
    place: u32,
    field: &FieldTree,
) -> Result<(), NoMemory>
    ensures { OnOk result (map field_name_of names.new ≡ map field_name_of names.old
        ++ field_where tokens.now number place field.now) }
{
    if is_instance(field) {
        names.push(field_name(alloc, tokens, number, place, field)?)?;
    }
    Ok(())
}

/// The instance fields of the class of a number.
pub(crate) fn field_names(
    alloc: Global,
    tokens: &Tokens,
    number: u32,
    class: &ClassTree<'_>,
) -> Result<Row<FieldName>, NoMemory>
    ensures { IfOk result (λ names. map field_name_of names ≡ each_from (field_where tokens.now number) 0
        class.now.fields) }
{
    let fields = class.fields.items();
    if fields.len() > 0xFFFF_FFFF {
        return Err(NoMemory);
    }
    let mut names = Row::new(alloc);
    for (place, field) in fields.iter().enumerate() {
        put_field(alloc, &mut names, tokens, number, place as u32, field)?;
    }
    Ok(names)
}
