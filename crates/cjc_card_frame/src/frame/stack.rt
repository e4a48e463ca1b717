//! The instructions that move words on the stack: pop, pop2, dup, dup2, dup_x and swap_x (Java Card Virtual
//! Machine Specification 2.2.2, chapter 7). They see no kind of word.

ghost use Rattle.std.specs.Prelude.{◌≡◌, ◌≤◌, ◌++◌, ℕ, take, drop, length, IfOk, OnOk};
ghost use Rattle.cjc_card_semantics.specs.Bytecode.Calculations.{copied, dup_x, is_swap, popped, swap_x};
ghost use Rattle.cjc_card_frame.specs.Frame.Frames.{Does, sunk};

use crate::frame::cells::Cells;
use crate::frame::ending::Ending;
use cjc_card_semantics::bytes::NoMemory;

/// Whether swap_x may have this number.
fn is_swap(number: usize) -> bool
    ensures { result ≡ is_swap number }
{
    number == 1 || number == 2
}

impl Cells {
    /// pop and pop2.
    pub(crate) fn pop(&mut self, count: usize) -> Ending
        ensures { (room : ℕ) → Does (popped count) room result self.old self.new }
    {
        if count <= self.height() {
            self.forget(count);
            Ending::Fine
        } else {
            Ending::Wrong
        }
    }

    /// Copies the top words below so many.
    fn copy_under(&mut self, words: usize, below: usize) -> Result<(), NoMemory>
        requires under { words ≤ below }
        requires there { below ≤ length self.old.stack }
        ensures { OnOk result (self.new ≡ record self.old {
          stack = take below self.old.stack
              ++ (take words self.old.stack ++ drop below self.old.stack);
        }) }
    {
        let mut left = words;
        while left > 0 {
            left -= 1;
            let Some(word) = self.word(left) else {
                return Ok(());
            };
            self.put_under(below, word)?;
        }
        Ok(())
    }

    /// dup, dup2, and dup_x of words that are there.
    pub(crate) fn copy(
        &mut self,
        room: usize,
        words: usize,
        below: usize,
    ) -> Result<Ending, NoMemory>
        requires { words ≤ below }
        ensures { IfOk result (λ e. Does (copied words below) room e self.old self.new) }
    {
        let height = self.height();
        if below <= height && words <= room && height <= room - words {
            self.copy_under(words, below)?;
            Ok(Ending::Fine)
        } else {
            Ok(Ending::Wrong)
        }
    }

    /// dup_x.
    pub(crate) fn dup_x(
        &mut self,
        room: usize,
        words: usize,
        below: usize,
    ) -> Result<Ending, NoMemory>
        ensures { IfOk result (λ e. Does (dup_x words below) room e self.old self.new) }
    {
        if words < 1 || words > 4 {
            return Ok(Ending::Wrong);
        }
        if below == 0 {
            return self.copy(room, words, words);
        }
        if words <= below && below <= words + 4 {
            self.copy(room, words, below)
        } else {
            Ok(Ending::Wrong)
        }
    }

    /// Moves the top word below so many others.
    fn sink_one(&mut self, below: usize) -> Result<Ending, NoMemory>
        requires { below ≤ 2 }
        ensures { IfOk result (λ e. (room : ℕ) → Does (sunk 1 below) room e self.old self.new) }
    {
        match self.word(0) {
            Some(top) if 1 + below <= self.height() => {
                self.forget(1);
                self.put_under(below, top)?;
                Ok(Ending::Fine)
            }
            Some(_) => Ok(Ending::Wrong),
            None => Ok(Ending::Wrong),
        }
    }

    /// Moves the top two words below so many others.
    fn sink_two(&mut self, below: usize) -> Result<Ending, NoMemory>
        requires { below ≤ 2 }
        ensures { IfOk result (λ e. (room : ℕ) → Does (sunk 2 below) room e self.old self.new) }
    {
        match (self.word(0), self.word(1)) {
            (Some(top), Some(second)) if 2 + below <= self.height() => {
                self.forget(2);
                self.put_under(below, second)?;
                self.put_under(below, top)?;
                Ok(Ending::Fine)
            }
            _ => Ok(Ending::Wrong),
        }
    }

    /// swap_x.
    pub(crate) fn swap_x(&mut self, words: usize, below: usize) -> Result<Ending, NoMemory>
        ensures { IfOk result (λ e. (room : ℕ) → Does (swap_x words below) room e self.old self.new) }
    {
        if !is_swap(words) || !is_swap(below) {
            return Ok(Ending::Wrong);
        }
        if words == 1 {
            Ok(self.sink_one(below)?)
        } else {
            Ok(self.sink_two(below)?)
        }
    }
}
