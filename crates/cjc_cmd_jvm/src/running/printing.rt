//! What is printed of the report of a run. The commands that run class files and components call it; it knows no
//! machine.

ghost use Rattle.std.specs.Prelude.{◌≡◌, ◌∷◌, [], IfOk};
ghost use Rattle.cjc_script_text.specs.Printed.{report_text};

use cjc_script_text::print;
use cjc_script_text::script::Report;
use cjc_shelf::bytes::{NoMemory, Row};
use cjc_shelf::command::Todo;
use std::alloc::Global;

/// What is printed of a report.
pub fn report_todo(alloc: Global, report: &Report) -> Result<Todo, NoMemory>
    ensures { IfOk result (λ todo. todo ≡ record { files = []; lines = report_text report.now ∷ [] }) }
{
    let mut lines = Row::new(alloc);
    lines.push(print(alloc, report)?)?;
    Ok(Todo {
        files: Row::new(alloc),
        lines,
    })
}
