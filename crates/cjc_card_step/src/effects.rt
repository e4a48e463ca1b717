//! The instructions of the card that ask the heap, static cells or look-ups, over the words of cjc_card_frame, the heap
//! of cjc_card_frame and the images of cjc_card_frame, against the definition of the machine by token. Whoever runs
//! components calls it. Knows no place in code, no component, and not how names are looked up.
mod arrays;
mod cells;
mod deed;
mod fields;
mod items;
mod objects;
mod operands;
mod types;

pub use arrays::{array_length, load, store};
pub use cells::{get_static, put_static};
pub use deed::{Deed, Returned};
pub use fields::{get_field, put_field};
pub use objects::{new_numbers, new_object, new_references};
pub use types::{check_cast, instance_of, leave, throw};
