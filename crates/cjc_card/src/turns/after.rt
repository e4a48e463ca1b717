//! What a call, a return or a throw by token leaves: the frame that goes on, the end of the run, or the offset
//! where it is stuck. Whoever makes one instruction after the other reads it.

use cjc_card_frame::frames::Frame;
use cjc_script::Outcome;

/// The frame under way, if there is one, or the end. Where nothing applies the instruction at an offset takes back.
#[derive(Drop)]
pub enum After {
    On(Option<Frame>),
    Ended(Outcome),
    Stuck(u32),
}
