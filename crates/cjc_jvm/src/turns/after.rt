//! What a call, a return or a throw leaves: the frame that goes on, or the end of the run. Whoever makes one
//! instruction after the other reads it.

use cjc_jvm_semantics::script::Outcome;
use cjc_jvm_step::frame::Activation;

/// The frame under way, if there is one, or the end.
#[derive(Drop)]
pub enum After<'a> {
    On(Option<Activation<'a>>),
    Ended(Outcome),
}
