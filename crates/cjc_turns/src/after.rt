//! What a move leaves.

use cjc_frame::Activation;
use cjc_script::Outcome;

/// The frame under way, if there is one, or the end.
#[derive(Drop)]
pub enum After<'a> {
    On(Option<Activation<'a>>),
    Ended(Outcome),
}
