//! Limits on the sizes of components, rules 411 and 416. Method is counted as if each of its instructions had
//! its greatest size, so that the limit says nothing of how jumps are laid out.

ghost use Rattle.std.specs.Prelude.{◌≡◌, ◌+◌, sum_by, option_map, IfOk};
ghost use Rattle.cjc_exported.specs.Bytes.Breaks.{IsFirstOf};
ghost use Rattle.cjc_exported.specs.Bytes.Told.{break_of};
ghost use Rattle.cjc_exported.specs.Components.Components.{components_of};
ghost use Rattle.cjc_exported.specs.Components.Limits.{size_breaks, widest_method};
ghost use Rattle.cjc_exported.specs.Components.Methods.{handler_count};
ghost use Rattle.cjc_exported.specs.Components.Package.{Package, codes};

use cjc_classes::bytes::{Break, NoMemory, RulePlace};
use cjc_classes::capread::CapTree;
use cjc_classes::capwrite::broken_limit;
use cjc_classes::ncode::NMethod;

fn sum(a: u64, b: u64) -> Result<u64, NoMemory>
    ensures { IfOk result (λ n. n ≡ a + b) }
{
    match a.checked_add(b) {
        Some(n) => Ok(n),
        None => Err(NoMemory),
    }
}

/// The greatest sizes of the code of all methods.
fn widest_codes(codes: &[NMethod]) -> Result<u64, NoMemory>
    ensures { IfOk result (λ n. n ≡ sum_by (λ c. c.widest) codes.now) }
{
    let mut bytes = 0;
    for code in codes {
        bytes = sum(bytes, u64::from(code.widest))?;
    }
    Ok(bytes)
}

/// The size of Method by the greatest sizes of its instructions, of a package whose methods have this code and so many
/// handlers in all: one byte, eight for each handler, and four for each method beside its code.
pub fn widest_method(handlers: usize, methods: &[NMethod]) -> Result<u64, NoMemory>
    ensures { (p : Package) → methods.now ≡ codes p → handlers ≡ sum_by handler_count p.methods
        → IfOk result (λ n. n ≡ widest_method p) }
{
    if handlers > 0xFFFF_FFFF || methods.len() > 0xFFFF_FFFF {
        return Err(NoMemory);
    }
    let tables = 1 + 8 * handlers as u64 + 4 * methods.len() as u64;
    sum(tables, widest_codes(methods)?)
}

/// The first that is broken of 411 and 416 by a package of these components, whose Method has this size by the greatest
/// sizes of its instructions. The place is the list, of this name.
pub fn size_break<'w>(list: &'w [u8], tree: &CapTree, widest: u64) -> Option<Break<'w>>
    ensures { (p : Package) → (let named = p.list in list.now ≡ named.name) → tree.now ≡ components_of p
        → widest ≡ widest_method p → IsFirstOf (size_breaks p) (option_map break_of result) }
{
    let spot = RulePlace::of_list(list);
    match broken_limit(tree) {
        Some(rule) => Some(Break { rule, spot }),
        None => {
            if widest > 65535 {
                Some(Break { rule: 416, spot })
            } else {
                None
            }
        }
    }
}
