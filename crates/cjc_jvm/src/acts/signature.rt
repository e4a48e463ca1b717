//! The types of a method's parameters and of its result, parsed from its descriptor once for a call.

ghost use Rattle.std.specs.Prelude.{◌≡◌, ◌≤◌, map, length, option_map, IfOk};
ghost use Rattle.cjc_jvm_step.specs.Script.Sorts.{sort_of, signature_of, result_by};
ghost use Rattle.cjc_jvm.specs.Acts.Meant.{sort_meant};

use crate::acts::sort::{Sort, sort_at};
use cjc_jvm_semantics::bytes::{Desc, Kind, NoMemory, Row};
use std::alloc::Global;
use std::marker::Model;

// More bytes than the descriptors of any file have.
const TOO_LONG: usize = 1 << 32;

/// The types of a method's parameters and of its result.
#[derive(Drop)]
pub struct Signature<'a> {
    params: Row<Sort<'a>>,
    returned: Option<Sort<'a>>,
}

impl<'a> Model for Signature<'a> {
    ghost use Rattle.cjc_jvm_step.specs.Script.Sorts.{Signature as Types};
    ghost use Rattle.cjc_jvm.specs.Acts.Meant.{signature_with};

    ghost Value = { Types };

    ghost view = { λ s. signature_with s.params s.returned };
}

impl<'a> Signature<'a> {
    /// Those of the parameters.
    pub fn params(&self) -> &[Sort<'a>]
        ensures { map sort_meant result.now ≡ self.now.params }
    {
        self.params.items()
    }

    /// How many parameters there are.
    pub fn count(&self) -> usize
        ensures { result ≡ length self.now.params }
    {
        self.params.items().len()
    }

    /// That of the result, if there is one.
    pub fn returned(&self) -> Option<Sort<'a>>
        ensures { option_map sort_meant result ≡ self.now.result }
    {
        self.returned
    }
}

fn params_of<'a>(alloc: Global, desc: &Desc<'a>) -> Result<Row<Sort<'a>>, NoMemory>
    ensures { IfOk result (λ sorts. map sort_meant sorts ≡ map sort_of desc.now.params) }
{
    let mut sorts = Row::new(alloc);
    for i in 0..desc.params() {
        sorts.push(sort_at(desc, i)?)?;
    }
    Ok(sorts)
}

fn returned_by<'a>(desc: &Desc<'a>) -> Result<Option<Sort<'a>>, NoMemory>
    ensures { IfOk result (λ sort. option_map sort_meant sort ≡ (let r = desc.now.result in result_by r.kind r)) }
{
    let count = desc.params();
    match desc.kind(count) {
        Kind::Void => Ok(None),
        _ => Ok(Some(sort_at(desc, count)?)),
    }
}

/// The types of a method's descriptor, where it is one.
pub fn signature_of(alloc: Global, desc: &[u8]) -> Result<Option<Signature<'_>>, NoMemory>
    ensures { IfOk result (λ types. types ≡ signature_of desc.now) }
{
    if desc.len() >= TOO_LONG {
        return Err(NoMemory);
    }
    match Desc::parse(desc) {
        Ok(desc) => {
            if !desc.is_method() {
                return Ok(None);
            }
            let params = params_of(alloc, &desc)?;
            let returned = returned_by(&desc)?;
            Ok(Some(Signature { params, returned }))
        }
        Err(_) => Ok(None),
    }
}
