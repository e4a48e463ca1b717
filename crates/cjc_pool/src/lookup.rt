//! `Pool` as emitting asks it: the index of what an instruction or a handler names, by the keys of the pool.

ghost use Rattle.std.specs.Prelude.{◌≡◌, position};
ghost use Rattle.cjc_narrow.specs.LowerNCode.PoolOrder.{same_key};
ghost use Rattle.cjc_narrow.specs.LowerNCode.declared.narrow.PoolKey.TheVariants as keys;
ghost use Rattle.cjc_pool.specs.Pool.{token_in};

use crate::pool::Pool;
use cjc_components::emit::PoolLookup;
use cjc_narrow::bytes::MemberId;
use cjc_narrow::keys::Key;
use cjc_narrow::ncode::PoolKey;

impl PoolLookup for Pool {
    ghost pool_keys = { λ p. p.keys };

    ghost method_token = { token_in };

    fn index(&self, key: &PoolKey) -> Option<u16> {
        let place = self.numbers.index_of(key)?;
        Some(place as u16)
    }

    fn class_index(&self, class: &[u8]) -> Option<u16> {
        let place = self.numbers.find(&Key::class(class))?;
        Some(place as u16)
    }

    fn interface_token(&self, method: &MemberId) -> Option<u8> {
        let place = self.calls.find(&Key::method(method))?;
        *self.tokens.items().get(place)?
    }
}
