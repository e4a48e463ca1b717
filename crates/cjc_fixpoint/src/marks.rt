//! Which places have a row of their own in a table: their numbers in ascending order, found by halving.

ghost use Rattle.std.specs.Prelude.{◌≡◌, ◌<◌, ◌^◌, ◌↔◌, IsTrue, Some, [], ◌∷◌, ◌++◌, if◌then◌else◌, is_some, length};
ghost use Rattle.std.specs.Prelude.{slice_get, IfOk, OnOk};
ghost use Rattle.std.specs.List.{range_with_len};
ghost use Rattle.cjc_fixpoint.specs.Kept.{IsAscending, mark_of as mark_at};
ghost use Rattle.cjc_fixpoint.specs.Marked.{marks_in};

use cjc_bytes::{NoMemory, Row};
use std::alloc::Global;

/// Which mark a place is.
pub(crate) fn mark_of(marks: &[u32], at: u32) -> Option<u32>
    requires { IsAscending marks.now }
    ensures { result ≡ mark_at marks.now at }
{
    match marks.binary_search(&at) {
        Ok(mark) => Some(mark as u32),
        Err(_) => None,
    }
}

/// Whether a place is marked.
pub fn is_marked(marks: &[u32], at: u32) -> bool
    requires { IsAscending marks.now }
    ensures { result ≡ is_some (mark_at marks.now at) }
{
    mark_of(marks, at).is_some()
}

/// Whether this mark is at a place.
pub fn is_at(marks: &[u32], mark: usize, at: u32) -> bool
    ensures { IsTrue result ↔ (slice_get marks.now mark ≡ Some at) }
{
    match marks.get(mark) {
        Some(place) => *place == at,
        None => false,
    }
}

/// Puts a place at the end, if it is marked.
fn put_if(marks: &mut Row<u32>, at: u32, marked: bool) -> Result<(), NoMemory>
    ensures { OnOk result (marks.new ≡ marks.old ++ (if marked then at ∷ [] else [])) }
{
    if marked { marks.push(at) } else { Ok(()) }
}

/// The marked places, where `marked` says of each whether it is.
pub fn marks_of(alloc: Global, marked: &[bool]) -> Result<Row<u32>, NoMemory>
    requires { length marked.now < 2 ^ 32 }
    ensures { IfOk result (λ marks. marks ≡ marks_in marked.now) }
{
    let mut marks = Row::new(alloc);
    for at in 0..marked.len() {
        put_if(&mut marks, at as u32, marked[at])?;
    }
    Ok(marks)
}

/// Every place as a mark.
pub fn all_marks(alloc: Global, places: u32) -> Result<Row<u32>, NoMemory>
    ensures { IfOk result (λ marks. marks ≡ range_with_len 0 places) }
{
    let mut marks = Row::new(alloc);
    for at in 0..places {
        marks.push(at)?;
    }
    Ok(marks)
}
