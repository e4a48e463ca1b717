//! What is written for packages made by hand. A case is the words of its list, as files.rt says, then ` : `, the name of a component, and
//! ` = ` its bytes; or ` = refused `, the rule, the file, the class and the member with `-` for an empty one, and the offset.

use crate::conversions::converted;
use crate::files::{files_of, list_of};
use cjc_bytes::{Bytes, Fault, NoMemory, Refusal};
use cjc_cases::{cut, is_number, octets, question_and_answer};
use cjc_conversion::{CapFiles, Converted};
use std::alloc::Global;
use std::test::*;

const CASES: &str = "\
lang sum : Header = 01,00,11,DE,CA,FF,ED,02,02,02,00,01,05,A0,00,00,00,01,01,70
lang sum : Directory = 02,00,21,00,11,00,21,00,00,00,0B,00,02,00,0C,00,07,00,0A,00,04,00,07,00,1A,00,00,00,00,00,00,00,00,01,00,00
lang sum : Import = 04,00,0B,01,00,01,07,A0,00,00,00,62,00,01
lang sum : ConstantPool = 05,00,02,00,00
lang sum : Class = 06,00,0C,00,00,00,80,00,00,FF,00,01,00,00,00
lang sum : Method = 07,00,07,00,02,10,1C,04,41,78
lang sum : StaticField = 08,00,0A,00,00,00,00,00,00,00,00,00,00
lang sum : RefLocation = 09,00,04,00,00,00,00
lang sum : Export = 0A,00,07,01,00,02,00,01,00,01
lang sum : Descriptor = 0B,00,1A,01,00,01,00,02,00,00,00,00,01,00,09,00,01,00,02,00,04,00,00,00,00,00,00,02,44
lang rows : Method = 07,00,50,00,03,20,18,1D,04,41,25,78,03,20,18,1D,04,43,25,78,03,10,18,18,92,04,43,25,78,02,20,1C,1D,47,78,02,10,1C,10,14,51,78,02,10,1C,10,10,4D,78,02,10,1C,02,53,78,01,10,1C,75,00,0D,00,01,00,05,00,09,04,78,05,78,03,78,01,10,1C,3B,70,04,04,78,03,78
lang q overrides : Class = 06,00,10,00,00,00,81,00,00,FF,00,01,02,00,00,00,08,FF,FF
lang q overrides : Method = 07,00,1E,00,01,10,18,8C,00,00,7A,01,10,10,07,78,02,00,8F,00,01,3D,8C,00,02,77,01,10,18,8B,00,03,78
lang q overrides : Export = absent
lang below abstract interface : Class = 06,00,23,00,00,80,01,80,00,00,FF,00,01,01,00,00,00,01,00,02,01,01,01,00,03,00,FF,00,01,01,00,00,00,03,00,02,01,01
lang below abstract interface : Method = 07,00,07,00,40,10,01,10,04,78
lang caught : Method = 07,00,20,02,00,15,00,01,00,17,00,01,00,13,80,03,00,1D,00,00,02,10,1C,1C,47,78,3B,04,78,3B,05,78,3B,06,78
lang caught : ConstantPool = 05,00,0A,00,02,01,80,00,00,01,80,05,00
lang caught : RefLocation = 09,00,05,00,00,00,01,07
lang statics : StaticField = 08,00,12,00,07,00,02,00,01,03,00,03,01,02,03,00,01,00,02,00,07
lang calls-first = refused 308 calls-first p/T <clinit>()V 0
+p/W lang framework installs interface : Header = 01,00,11,DE,CA,FF,ED,02,02,04,00,01,05,A0,00,00,00,01,01,70
+p/W lang framework installs interface : Applet = 03,00,0A,01,06,A0,00,00,00,01,01,00,01
+p/W lang framework installs interface : Export = absent
lang members wider narrower : Class = 06,00,1D,00,00,80,81,00,02,02,80,00,04,01,02,01,02,00,00,00,04,00,06,00,02,01,01,00,03,02,01,02
lang members wider narrower : Method = 07,00,08,00,00,00,7A,40,10,40,10
lang members wider narrower : Export = 0A,00,0F,03,00,06,00,01,00,01,00,03,00,00,00,02,00,00
lang members wider narrower : Descriptor = 0B,00,8D,03,02,C1,00,02,00,00,00,00,01,00,41,00,00,00,02,00,00,00,00,00,00,01,C1,00,03,01,00,00,00,01,00,02,01,41,00,00,00,02,00,00,00,00,00,00,00,81,00,06,02,00,05,00,03,00,02,00,03,02,02,00,06,02,00,04,00,01,00,06,00,80,04,01,04,00,06,01,00,08,03,00,00,06,03,80,03,FF,08,00,00,00,00,04,00,09,00,01,00,0A,00,01,00,00,00,00,01,41,00,04,00,02,00,00,00,00,00,00,02,41,00,06,00,02,00,00,00,00,00,00,00,00,01,40,05,68,00,00,01,B0,01,10
+p/Wallet lang framework wallet : Class = 06,00,0E,00,00,00,81,00,01,FF,00,02,01,00,00,00,15
+p/Wallet lang framework wallet : ConstantPool = 05,00,1E,00,07,02,00,02,00,06,81,00,00,01,00,02,00,06,00,00,01,03,00,02,01,03,81,01,01,06,81,02,00
+p/Wallet lang framework wallet : Method = 07,00,59,00,01,10,18,8C,00,01,7A,02,30,8F,00,02,3D,8C,00,03,8B,00,04,7A,04,21,19,8B,00,05,2D,1A,04,25,75,00,33,00,02,00,30,00,0D,00,40,00,19,18,18,85,00,1A,08,25,41,89,00,70,22,1A,08,25,18,85,00,6F,08,11,6A,85,8D,00,06,18,18,85,00,1A,08,25,43,89,00,70,08,11,6D,00,8D,00,06,7A
+p/Wallet lang framework wallet : RefLocation = 09,00,10,00,05,2F,06,08,0C,06,00,07,05,06,04,03,07,2B,12
+p/Wallet lang framework wallet : Applet = 03,00,0A,01,06,A0,00,00,00,01,01,00,08
lang two-orders = refused 311 two-orders p/T c(S)S 5
";

/// A component by its name; nothing where it is absent.
fn component<'c>(caps: &'c CapFiles, name: &str) -> &'c [u8] {
    match name {
        "Header" => caps.header.items(),
        "Directory" => caps.directory.items(),
        "Applet" => of(&caps.applet),
        "Import" => caps.import.items(),
        "ConstantPool" => caps.pool.items(),
        "Class" => caps.class.items(),
        "Method" => caps.method.items(),
        "StaticField" => caps.statics.items(),
        "RefLocation" => caps.locations.items(),
        "Export" => of(&caps.export),
        "Descriptor" => caps.descriptor.items(),
        _ => b"",
    }
}

fn of(bytes: &Option<Bytes>) -> &[u8] {
    match bytes {
        Some(bytes) => bytes.items(),
        None => b"",
    }
}

fn is_component(
    made: &Converted,
    name: &str,
    alloc: Global,
    wanted: &str,
) -> Result<bool, NoMemory> {
    let bytes = component(&made.caps, name);
    if wanted == "absent" {
        return Ok(bytes.is_empty());
    }
    let wanted = octets(alloc, wanted)?;
    Ok(bytes == wanted.as_slice())
}

fn is_part(part: &Bytes, word: &str) -> bool {
    part.items() == word.as_bytes() || (word == "-" && part.items().is_empty())
}

fn is_refusal(refusal: &Refusal, wanted: &str) -> bool {
    let (rule, wanted) = cut(wanted, " ");
    let (file, wanted) = cut(wanted, " ");
    let (class, wanted) = cut(wanted, " ");
    let (member, offset) = cut(wanted, " ");
    let place = &refusal.place;
    is_number(rule, u32::from(refusal.rule.0))
        && is_part(&place.file, file)
        && is_part(&place.class, class)
        && is_part(&place.member, member)
        && is_number(offset, place.offset)
}

/// What is written for the package of these words.
fn converted_words(alloc: Global, words: &str) -> Result<Converted, Fault> {
    let text = list_of(alloc, words)?;
    let files = files_of(alloc, words)?;
    converted(alloc, text.items(), &files)
}

fn is_so(alloc: Global, case: &str) -> Result<bool, NoMemory> {
    let (question, wanted) = question_and_answer(case);
    let (words, name) = cut(question, " : ");
    match converted_words(alloc, words) {
        Ok(made) => is_component(&made, name, alloc, wanted),
        Err(Fault::Refused(refusal)) => match wanted.strip_prefix("refused ") {
            Some(wanted) => Ok(is_refusal(&refusal, wanted)),
            None => Ok(false),
        },
        Err(Fault::NoMemory) => Err(NoMemory),
    }
}

/// The first case that goes otherwise; nothing where there is none.
fn first_wrong(alloc: Global) -> &'static str {
    for case in CASES.lines() {
        match is_so(alloc, case) {
            Ok(true) => {}
            _ => return case,
        }
    }
    ""
}

#[test]
fn writes_components(rt: HostRuntime) {
    assert_eq!(rt; first_wrong(rt.alloc()), "");
}
