//! The constant pool that a package's narrow code needs, made once and then looked up.

ghost use Rattle.std.specs.Prelude.{◌≡◌, ◌≤◌, [], nat_lt, IfOk, IfErr, OnOk};
ghost use Rattle.cjc_components.specs.Bytes.Breaks.{IsFirstRefusal, at, list_spot};
ghost use Rattle.cjc_pool.specs.Pool.{IsPool, most_entries, pool_breaks};

use crate::calls::{called, tokens_of};
use cjc_components::tokens::Tokens;
use cjc_narrow::bytes::{Fault, Row, RulePlace, answer, broken};
use cjc_narrow::keys::{Numbers, number};
use cjc_narrow::ncode::{NMethod, PoolKey};
use cjc_narrow::world::World;
use std::alloc::Global;
use std::marker::Model;

/// The most entries that a pool may have.
pub const MOST_ENTRIES: usize = 16383;

/// A constant pool by its keys (Java Card Virtual Machine Specification 2.2.2, section 6.7), with the tokens of
/// the methods of interfaces that code calls.
pub struct Pool {
    pub(crate) numbers: Numbers,
    /// The methods of interfaces that code calls, and the token of each.
    pub(crate) calls: Numbers,
    pub(crate) tokens: Row<Option<u8>>,
}

impl Drop for Pool {
    fn drop(self) {
        let Pool {
            numbers: _numbers,
            calls: _calls,
            tokens: _tokens,
        } = self;
    }
}

impl Model for Pool {
    ghost use Rattle.std.specs.Prelude.{◌≤◌, length};
    ghost use Rattle.cjc_pool.specs.Pool.{PoolView};

    ghost Value = { PoolView };

    ghost view = { λ p. record { keys = p.numbers; calls = p.calls; tokens = p.tokens } };

    ghost invariant = { λ p. length p.numbers ≤ 16383 };
}

impl Pool {
    /// The keys of the entries, in their order. Takes no memory.
    pub fn keys(&self) -> &Row<PoolKey>
        ensures { result.now ≡ self.now.keys }
    {
        self.numbers.keys()
    }
}

/// Rule 414 for so many entries.
#[tactic(auto, using(crate::proofs::Tokens::few_where))]
fn test_count(alloc: Global, list: &[u8], count: usize) -> Result<(), Fault>
    ensures few { OnOk result (count ≤ most_entries) }
    ensures unbroken { OnOk result (at (nat_lt most_entries count) (list_spot list.now) 414 ≡ []) }
    ensures refused { IfErr result (IsFirstRefusal (at (nat_lt most_entries count) (list_spot list.now) 414)) }
{
    let spot = RulePlace::of_list(list);
    answer(alloc, broken(count > MOST_ENTRIES, spot, 414))
}

/// The constant pool that these methods need. `list` is the name of the list, the place of rule 414: more than
/// 16,383 entries.
pub fn build(
    alloc: Global,
    list: &[u8],
    world: &World<'_>,
    tokens: &Tokens,
    methods: &Row<NMethod>,
) -> Result<Pool, Fault>
    ensures made { IfOk result (IsPool world.now tokens.now methods.now) }
    ensures unbroken { OnOk result (pool_breaks list.now methods.now ≡ []) }
    ensures refused { IfErr result (IsFirstRefusal (pool_breaks list.now methods.now)) }
{
    let numbers = number(alloc, methods.items())?;
    test_count(alloc, list, numbers.keys().items().len())?;
    let calls = called(alloc, methods.items())?;
    let tokens = tokens_of(alloc, world, tokens, calls.keys().items())?;
    Ok(Pool {
        numbers,
        calls,
        tokens,
    })
}
