//! The instructions of class files that ask the heap, static cells or look-ups, over the frames of cjc_jvm_step and the
//! heap of cjc_jvm_step, against the definition that cjc_jvm_semantics gives. Knows no class files and how names are
//! looked up,
//! no tokens, no components, and nothing of the card's machine.
mod arrays;
mod deeds;
mod fields;
mod instruction;
mod lookups;
mod objects;
mod shapes;
mod statics;
mod stores;
mod types;

pub use arrays::{array_length, array_load, load_element};
pub use deeds::deed_of;
pub use fields::{act_on_field, get_field, put_field};
pub use instruction::act;
pub use lookups::{Call, Callee, LookUps, ResolvedField};
pub use objects::{new_array, new_numbers, new_object, new_of};
pub use shapes::{Shape, array_kind, array_of, class_within, shape_named};
pub use statics::{act_on_static, get_static, put_static};
pub use stores::array_store;
pub use types::{check_cast, instance_of, is_of, new_references};
