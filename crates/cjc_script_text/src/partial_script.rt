//! What the lines of a script add up to: calls and answers, and acts that wait for the call or answer they
//! stand before. Called by `reading`.

ghost use Rattle.std.specs.Prelude.{◌≡◌, ◌+◌, ◌<◌, ◌^◌, length, IfOk};
ghost use Rattle.cjc_list.specs.Bytes.Found.{Finds};
ghost use Rattle.cjc_script_text.specs.Scripted.{fresh, with_item, with_line, turns, ended};

use crate::item::{Item, read_item};
use cjc_list::bytes::{Line, NoMemory, Row, Stop};
use cjc_script::{Act, Answer, Entry, Script};
use std::alloc::Global;
use std::mem;

/// The calls and answers so far, and acts behind them to which none belongs yet.
#[derive(Drop)]
pub(crate) struct PartialScript {
    pub(crate) script: Script,
    pub(crate) acts: Row<Act>,
    /// Where the first of the acts stands, or 0 where there is none.
    pub(crate) since: u32,
}

impl PartialScript {
    /// Nothing yet.
    pub(crate) fn new(alloc: Global) -> PartialScript
        ensures { result ≡ fresh }
    {
        PartialScript {
            script: Script {
                entries: Row::new(alloc),
                answers: Row::new(alloc),
            },
            acts: Row::new(alloc),
            since: 0,
        }
    }

    /// How many calls and answers there are.
    fn turns(&self) -> u32
        requires { turns self.now < 2 ^ 32 }
        ensures { result ≡ turns self.now }
    {
        (self.script.entries.items().len() + self.script.answers.items().len()) as u32
    }

    /// With what a line at this place says.
    fn with_item(self, alloc: Global, at: u32, item: Item) -> Result<PartialScript, NoMemory>
        requires { turns self < 2 ^ 32 }
        ensures { IfOk result (λ d. d ≡ with_item at item self) }
    {
        let number = self.turns();
        let mut partial_script = self;
        match item {
            Item::Act(act) => {
                if partial_script.acts.items().is_empty() {
                    partial_script.since = at;
                }
                partial_script.acts.push(act)?;
            }
            Item::Call {
                virtual_call,
                method,
                args,
            } => {
                let acts = mem::replace(&mut partial_script.acts, Row::new(alloc));
                partial_script.since = 0;
                partial_script.script.entries.push(Entry {
                    number,
                    acts,
                    virtual_call,
                    method,
                    args,
                })?;
            }
            Item::Reply(reply) => {
                let acts = mem::replace(&mut partial_script.acts, Row::new(alloc));
                partial_script.since = 0;
                partial_script.script.answers.push(Answer {
                    number,
                    acts,
                    reply,
                })?;
            }
        }
        Ok(partial_script)
    }

    /// With one line more.
    pub(crate) fn with_line(self, alloc: Global, line: &Line<'_>) -> Result<PartialScript, Stop>
        requires short { length line.now.text < 2 ^ 32 }
        requires few { turns self < 2 ^ 32 }
        ensures { Finds (λ d. d) (with_line self line.now) result }
    {
        let item = read_item(alloc, line)?;
        let partial_script = self.with_item(alloc, line.at(), item)?;
        Ok(partial_script)
    }

    /// The script, where no acts are left to which nothing belongs.
    pub(crate) fn end(self) -> Result<Script, Stop>
        ensures { Finds (λ s. s) (ended self) result }
    {
        if self.acts.items().is_empty() {
            Ok(self.script)
        } else {
            Err(Stop::Broken(self.since))
        }
    }
}
