//! What emitting asks of a constant pool. Whoever has a pool implements it.

ghost use Rattle.std.specs.Prelude.{◌≡◌, ℕ, List, Option, position};
ghost use Rattle.cjc_layout.specs.Bytes.declared.fault.MemberId.{MemberId as Member};
ghost use Rattle.cjc_ncode.specs.declared.narrow.PoolKey.{PoolKey as Key};
ghost use Rattle.cjc_ncode.specs.declared.narrow.PoolKey.TheVariants as keys;
ghost use Rattle.cjc_ncode.specs.PoolOrder.{same_key};

use cjc_ncode::PoolKey;
use cjc_ncode::bytes::MemberId;

/// A constant pool (Java Card Virtual Machine Specification 2.2.2, section 6.7), with the tokens of interfaces'
/// methods. A look-up is not to search the pool, since each instruction that names something makes one.
pub trait PoolLookup {
    /// The keys of the entries, in their order.
    ghost pool_keys: { Self → List Key };

    /// The tokens of interfaces' methods that are known.
    ghost method_token: { Self → Member → Option ℕ };

    /// The index of a key.
    fn index(&self, key: &PoolKey) -> Option<u16>
        ensures { result ≡ position (same_key key.now) (pool_keys self.now) };

    /// The index of a class by its full name.
    fn class_index(&self, class: &[u8]) -> Option<u16>
        ensures { result ≡ position (same_key (keys.Class class.now)) (pool_keys self.now) };

    /// The token of an interface's method.
    fn interface_token(&self, method: &MemberId) -> Option<u8>
        ensures { result ≡ method_token self.now method.now };
}
