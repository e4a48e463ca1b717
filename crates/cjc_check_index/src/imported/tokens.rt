//! What imported classes have by token (Java Card Virtual Machine Specification 2.2.2, section 4.3.7 and chapter 5).
//! Whoever tests what components name of other packages makes it.

ghost use Rattle.std.specs.Prelude.{◌≡◌, List, IfOk};
ghost use Rattle.cjc_check_rules.specs.ExportFile.declared.tree.ExportClass.{ExportClass as Class};
ghost use Rattle.cjc_check_rules.specs.ExportFile.Supers.{has_virtual, inherits_virtual};
ghost use Rattle.cjc_check_index.specs.Imported.Tokens.{AreTokens, by_token, has_field};
ghost use Rattle.cjc_check_index.specs.Imported.Working.Graph.{AreBelow, above_of};
ghost use Rattle.cjc_check_index.specs.Imported.Working.Upwards.{AreUpwards};

use crate::imported::classes::{Classes, ImportedClass, all_classes};
use crate::imported::graph::{above_of, below_of};
use crate::imported::listed::{field_tables, method_tables};
use crate::imported::rows::{closed_rows, inherited_rows};
use cjc_check_rules::bytes::{NoMemory, Row};
use cjc_check_rules::export_file::ExportTree;
use std::alloc::Global;

/// What the classes of all export files have by token. The classes stand one behind the other, file by file.
pub struct Tokens {
    /// Where the classes of each file begin.
    pub starts: Row<usize>,
    /// By token, which classes list a virtual method or inherit one.
    pub virtuals: Row<Row<bool>>,
    /// By token, which classes inherit a virtual method.
    pub inherited: Row<Row<bool>>,
    /// By token, which classes list an instance field or inherit one.
    pub fields: Row<Row<bool>>,
    /// Of each class the tokens of static methods and constructors that it lists.
    pub static_methods: Row<Row<bool>>,
    /// Of each class the tokens of static fields that it lists.
    pub static_fields: Row<Row<bool>>,
}

impl Drop for Tokens {
    fn drop(self) {
        let Tokens {
            starts: _starts,
            virtuals: _virtuals,
            inherited: _inherited,
            fields: _fields,
            static_methods: _static_methods,
            static_fields: _static_fields,
        } = self;
    }
}

/// What classes have or inherit, by token.
#[derive(Drop)]
struct Upwards {
    virtuals: Row<Row<bool>>,
    inherited: Row<Row<bool>>,
    fields: Row<Row<bool>>,
}

/// By token, which classes have a virtual method.
fn virtuals_of(
    alloc: Global,
    classes: &[ImportedClass<'_>],
    below: &[Row<usize>],
) -> Result<Row<Row<bool>>, NoMemory>
    requires { AreBelow (above_of classes.now) below.now }
    ensures { IfOk result (λ rows. rows ≡ by_token (has_virtual classes.now) classes.now) }
{
    let tables = method_tables(alloc, false, classes)?;
    let rows = closed_rows(alloc, below, tables.items())?;
    Ok(rows)
}

/// By token, which classes have an instance field.
fn fields_of(
    alloc: Global,
    classes: &[ImportedClass<'_>],
    below: &[Row<usize>],
) -> Result<Row<Row<bool>>, NoMemory>
    requires { AreBelow (above_of classes.now) below.now }
    ensures { IfOk result (λ rows. rows ≡ by_token (has_field classes.now) classes.now) }
{
    let tables = field_tables(alloc, false, classes)?;
    let rows = closed_rows(alloc, below, tables.items())?;
    Ok(rows)
}

/// By token, which classes inherit a virtual method.
fn inherited_of(
    alloc: Global,
    above: &[Row<usize>],
    virtuals: &[Row<bool>],
) -> Result<Row<Row<bool>>, NoMemory>
    ensures { (classes : List Class) → above.now ≡ above_of classes → virtuals.now ≡ by_token (has_virtual classes)
        classes
        → IfOk result (λ rows. rows ≡ by_token (inherits_virtual classes) classes) }
{
    let rows = inherited_rows(alloc, above, virtuals)?;
    Ok(rows)
}

/// What classes have or inherit, by token, where it is known which stand above and below each.
fn upwards_by(
    alloc: Global,
    classes: &[ImportedClass<'_>],
    above: &[Row<usize>],
    below: &[Row<usize>],
) -> Result<Upwards, NoMemory>
    requires above { above.now ≡ above_of classes.now }
    requires below { AreBelow above.now below.now }
    ensures { IfOk result (λ t. AreUpwards classes.now t) }
{
    let virtuals = virtuals_of(alloc, classes, below)?;
    let inherited = inherited_of(alloc, above, virtuals.items())?;
    let fields = fields_of(alloc, classes, below)?;
    Ok(Upwards {
        virtuals,
        inherited,
        fields,
    })
}

/// What classes have or inherit, by token.
fn upwards_of(alloc: Global, classes: &[ImportedClass<'_>]) -> Result<Upwards, NoMemory>
    ensures { IfOk result (λ t. AreUpwards classes.now t) }
{
    let above = above_of(alloc, classes)?;
    let below = below_of(alloc, above.items())?;
    upwards_by(alloc, classes, above.items(), below.items())
}

/// What the classes of export files have by token.
pub fn imported_tokens(alloc: Global, exports: &[ExportTree]) -> Result<Tokens, NoMemory>
    ensures { IfOk result (λ t. AreTokens exports.now t) }
{
    let Classes { all, starts } = all_classes(alloc, exports)?;
    let upwards = upwards_of(alloc, all.items())?;
    let static_methods = method_tables(alloc, true, all.items())?;
    let static_fields = field_tables(alloc, true, all.items())?;
    let Upwards {
        virtuals,
        inherited,
        fields,
    } = upwards;
    Ok(Tokens {
        starts,
        virtuals,
        inherited,
        fields,
        static_methods,
        static_fields,
    })
}
