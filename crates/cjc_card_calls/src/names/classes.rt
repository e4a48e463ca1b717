//! Imported classes that a script names: those whose objects it makes, and those that an answer throws. No
//! instruction asks here.

ghost use Rattle.std.specs.Prelude.{◌≡◌, codes, option_and_then, option_map};
ghost use Rattle.cjc_card_semantics.specs.Machine.Calls.{if_below, imported, imported_class_of, throwable};
ghost use Rattle.cjc_card_semantics.specs.Machine.Classes.{external_named};
ghost use Rattle.cjc_card_frame.specs.Objects.{class_of};
ghost use Rattle.cjc_card_calls.specs.Lines.Lines.{AreLines};
ghost use Rattle.cjc_card_link.specs.Tables.{AreKept, loaded_of};

use crate::lines::{Lines, is_kind_of};
use cjc_card_frame::heap::Class;
use cjc_card_link::Tables;

// A class that is no interface.
fn imported_class_of(tables: &Tables<'_>, class: Class) -> Option<Class>
    requires { AreKept tables.now }
    ensures { option_map class_of result ≡ imported_class_of (loaded_of tables.now) (class_of class) }
{
    if tables.is_interface(class) {
        None
    } else {
        Some(class)
    }
}

/// The imported class of a name that is no interface.
pub fn imported(tables: &Tables<'_>, name: &[u8]) -> Option<Class>
    requires { AreKept tables.now }
    ensures { option_map class_of result ≡ imported (loaded_of tables.now) name.now }
{
    match tables.external_named(name) {
        Some(class) => imported_class_of(tables, class),
        None => None,
    }
}

// A class that is another or stands below it.
fn if_below(tables: &Tables<'_>, lines: &Lines, class: Class, above: Class) -> Option<Class>
    requires { AreLines (loaded_of tables.now) lines.now }
    ensures { option_map class_of result ≡ if_below (loaded_of tables.now) (class_of class) (class_of above) }
{
    if is_kind_of(tables, lines, class, above) {
        Some(class)
    } else {
        None
    }
}

// A class that is java/lang/Throwable or a subclass of it.
fn if_throwable(tables: &Tables<'_>, lines: &Lines, class: Class) -> Option<Class>
    requires { AreLines (loaded_of tables.now) lines.now }
    ensures { option_map class_of result ≡ option_and_then (if_below (loaded_of tables.now) (class_of class))
        (external_named (loaded_of tables.now) (codes "java/lang/Throwable")) }
{
    match tables.external_named(b"java/lang/Throwable") {
        Some(above) => if_below(tables, lines, class, above),
        None => None,
    }
}

/// java/lang/Throwable or an imported subclass of it, by its name.
pub fn throwable(tables: &Tables<'_>, lines: &Lines, name: &[u8]) -> Option<Class>
    requires tables { AreKept tables.now }
    requires lines { AreLines (loaded_of tables.now) lines.now }
    ensures { option_map class_of result ≡ throwable (loaded_of tables.now) name.now }
{
    match imported(tables, name) {
        Some(class) => if_throwable(tables, lines, class),
        None => None,
    }
}
