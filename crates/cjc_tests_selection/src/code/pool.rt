//! A pool without entries: the look-ups of emitting answer nothing, for test methods that name no member and no
//! class.

ghost use Rattle.std.specs.Prelude.{[], None};

use cjc_examples::bytes::MemberId;
use cjc_examples::emit::PoolLookup;
use cjc_examples::ncode::PoolKey;

/// A pool without entries.
pub(crate) struct NoEntries;

impl PoolLookup for NoEntries {
    ghost pool_keys = { λ _. [] };

    ghost method_token = { λ _ _. None };

    fn index(&self, _key: &PoolKey) -> Option<u16> {
        None
    }

    fn class_index(&self, _class: &[u8]) -> Option<u16> {
        None
    }

    fn interface_token(&self, _method: &MemberId) -> Option<u8> {
        None
    }
}
