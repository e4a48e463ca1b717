//! Look-up in an export file that is read: a class by name or token, a member by name and descriptor. Nothing
//! here takes memory.

ghost use Rattle.std.specs.Prelude.{◌≡◌, ◌↔◌, ℕ, List, true, Some, map};
ghost use Rattle.std.specs.List.{AllByRecursion};
ghost use Rattle.cjc_export.specs.Lookup.{in_32_bits, name_place, token_place, field_place, method_place, member_place};
ghost use Rattle.cjc_export.specs.Lookup.{place_of_member};
ghost use Rattle.cjc_export.specs.Supers.{class_named, is_one_of, are_apart, IsAtOrAbove, upwards};
ghost use Rattle.cjc_export.specs.declared.tree.ExportClass.{ExportClass as Class};

use crate::tree::{ExportClass, ExportField, ExportMethod, ExportTree};

#[tactic(auto, unfolding(crate::specs::Lookup::in_32_bits))]
fn in_32_bits(place: Option<usize>) -> Option<u32>
    ensures { result ≡ in_32_bits place }
{
    match place {
        Some(place) if place < 0x1_0000_0000 => Some(place as u32),
        _ => None,
    }
}

fn name_place(classes: &[ExportClass], name: &[u8]) -> Option<usize>
    ensures { result ≡ name_place classes.now name.now }
{
    classes.iter().position(|c| c.name.items() == name)
}

fn token_place(classes: &[ExportClass], token: u8) -> Option<usize>
    ensures { result ≡ token_place classes.now token }
{
    classes.iter().position(|c| c.token == token)
}

fn field_place(fields: &[ExportField], name: &[u8], desc: &[u8]) -> Option<usize>
    ensures { result ≡ field_place fields.now name.now desc.now }
{
    fields
        .iter()
        .position(|f| f.name.items() == name && f.desc.items() == desc)
}

fn method_place(methods: &[ExportMethod], name: &[u8], desc: &[u8]) -> Option<usize>
    ensures { result ≡ method_place methods.now name.now desc.now }
{
    methods
        .iter()
        .position(|m| m.name.items() == name && m.desc.items() == desc)
}

/// The place of a member of a class, the fields counted first and then the methods.
#[tactic(auto, unfolding(crate::specs::Lookup::member_place))]
fn member_place(class: &ExportClass, name: &[u8], desc: &[u8]) -> Option<usize>
    ensures { result ≡ member_place class.now name.now desc.now }
{
    let fields = class.fields.items();
    match field_place(fields, name, desc) {
        Some(place) => Some(place),
        None => match method_place(class.methods.items(), name, desc) {
            Some(place) => Some(fields.len() + place),
            None => None,
        },
    }
}

impl ExportTree {
    /// The place of the class of this name; none where there is none.
    pub fn class_by_name(&self, name: &[u8]) -> Option<u32>
        ensures { result ≡ in_32_bits (name_place self.now.classes name.now) }
    {
        in_32_bits(name_place(self.classes.items(), name))
    }

    /// The place of the class with this token; none where there is none.
    pub fn class_by_token(&self, token: u8) -> Option<u32>
        ensures { result ≡ in_32_bits (token_place self.now.classes token) }
    {
        in_32_bits(token_place(self.classes.items(), token))
    }

    /// The place of the member of this name and descriptor in the class at this place, the fields counted first
    /// and then the methods; none where there is none.
    #[tactic(auto, unfolding(crate::specs::Lookup::in_32_bits))]
    pub fn member(&self, class: u32, name: &[u8], desc: &[u8]) -> Option<u32>
        ensures { result ≡ in_32_bits (place_of_member self.now.classes class name.now desc.now) }
    {
        match self.classes.items().get(class as usize) {
            Some(class) => in_32_bits(member_place(class, name, desc)),
            None => None,
        }
    }
}

/// Going upwards over export files gives the classes of some names and all that stand above them by what is
/// listed, each once, and nothing else.
pub fn supers()
    ensures found { (classes : List Class) (names : List (List ℕ)) (name : List ℕ)
        → (is_one_of (map (λ c. c.name) (upwards classes names)) name ≡ true) ↔ (IsAtOrAbove classes names name
        × ((c : Class) × (class_named classes name ≡ Some c))) }
    ensures own { (classes : List Class) (names : List (List ℕ)) → AllByRecursion (λ c. class_named classes c.name
        ≡ Some c) (upwards classes names) }
    ensures once { (classes : List Class) (names : List (List ℕ))
        → are_apart (map (λ c. c.name) (upwards classes names)) ≡ true }
{}
