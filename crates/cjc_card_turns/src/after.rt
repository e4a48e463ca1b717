//! What a step of a run leaves.

use cjc_card_frames::Frame;
use cjc_script::Outcome;

/// The frame under way, if there is one, or the end. Where nothing applies the instruction at an offset takes back.
#[derive(Drop)]
pub enum After {
    On(Option<Frame>),
    Ended(Outcome),
    Stuck(u32),
}
