//! The components of a package of which only Applet and Export may be absent. It knows no sentence.

ghost use Rattle.std.specs.Prelude.{◌≡◌, option_map};
ghost use Rattle.cjc_check_rules.specs.Complete.{complete};
ghost use Rattle.cjc_check_index.specs.Lookup.Parts.{complete_of};

use cjc_check_rules::capread::{
    Applet, CapTree, ClassInfo, ConstantPool, Descriptor, Export, Import, Method,
    ReferenceLocation, StaticField,
};

/// Components, each by itself.
#[derive(Clone, Copy)]
pub struct Parts<'a> {
    pub applet: &'a Option<Applet>,
    pub import: &'a Import,
    pub pool: &'a ConstantPool,
    pub class: &'a ClassInfo,
    pub method: &'a Method,
    pub statics: &'a StaticField,
    pub locations: &'a ReferenceLocation,
    pub export: &'a Option<Export>,
    pub descriptor: &'a Descriptor,
}

/// The components, where no other one is absent.
pub fn parts_of(tree: &CapTree) -> Option<Parts<'_>>
    ensures { option_map complete_of result ≡ complete tree.now }
{
    let Some(import) = &tree.import else {
        return None;
    };
    let Some(pool) = &tree.pool else {
        return None;
    };
    let Some(class) = &tree.class else {
        return None;
    };
    let Some(method) = &tree.method else {
        return None;
    };
    let Some(statics) = &tree.statics else {
        return None;
    };
    let Some(locations) = &tree.locations else {
        return None;
    };
    let Some(descriptor) = &tree.descriptor else {
        return None;
    };
    Some(Parts {
        applet: &tree.applet,
        import,
        pool,
        class,
        method,
        statics,
        locations,
        export: &tree.export,
        descriptor,
    })
}
