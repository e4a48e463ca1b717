//! `Sink`, a place that takes printed bytes in order and may fail after some of them. Commands are proved over
//! any sink.

ghost use Rattle.cjc_shelf.specs.Sink.{Sunk, Puts};

use thiserror::Error;

/// A sink did not take all that was put.
#[derive(Clone, Copy, Debug, Drop, Error)]
#[error("the output could not be written")]
pub struct SinkFailed;

/// Takes bytes in order.
pub trait Sink {
    ghost sunk: { Self → Sunk };

    /// Appends the bytes, or, where it fails, some of them from the front.
    fn put(&mut self, bytes: &[u8]) -> Result<(), SinkFailed>
        ensures { Puts bytes.now (sunk self.old) (sunk self.new) result };
}
