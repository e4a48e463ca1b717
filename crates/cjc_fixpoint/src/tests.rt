//! The solver at a small flow, in which a place adds a name to those that the ways to it have met.

ghost use Rattle.std.specs.Prelude.{◌≡◌, ◌<◌, ◌^◌, [], ◌∷◌, length, map, filter, nat_lt, IfOk};
ghost use Rattle.cjc_fixpoint.specs.Names.{name_flow, union, edge};
ghost use Rattle.cjc_fixpoint.specs.Tables.{IsLeastClosed};

use crate::{Edge, Flow, Table, solve};
use cjc_bytes::{NoMemory, Row};
use std::alloc::Global;
use std::test::Fail;

/// A place has a name and two targets; a target past the last place leaves the code.
#[derive(Drop)]
struct NameFlow<'a> {
    names: &'a [u8],
    code: &'a [(u8, u32, u32)],
}

/// The names of either set.
fn either(alloc: Global, names: &[u8], xs: &[u8], ys: &[u8]) -> Result<Row<u8>, NoMemory>
    ensures { IfOk result (λ set. set ≡ union names.now xs.now ys.now) }
{
    let mut set = Row::new(alloc);
    for name in names {
        if xs.contains(name) || ys.contains(name) {
            set.push(*name)?;
        }
    }
    Ok(set)
}

/// An edge to each target that is a place.
fn edges_to(
    alloc: Global,
    names: &[u8],
    places: usize,
    name: u8,
    targets: &[u32],
    set: &Row<u8>,
) -> Result<Row<Edge<Row<u8>>>, NoMemory>
    ensures { IfOk result (λ edges. edges
        ≡ map (edge (union names.now (name ∷ []) set.now)) (filter (λ to. nat_lt to places) targets.now)) }
{
    let mut edges = Row::new(alloc);
    for to in targets {
        if (*to as usize) < places {
            let state = either(alloc, names, &[name], set.items())?;
            edges.push(Edge { to: *to, state })?;
        }
    }
    Ok(edges)
}

impl Flow for NameFlow<'_> {
    ghost use Rattle.cjc_fixpoint.specs.Working.NameLaws.{name_laws};
    ghost use Rattle.cjc_fixpoint.specs.Names.{name_flow};

    type State = Row<u8>;

    ghost meaning = { λ flow. name_flow flow.names.now flow.code.now };

    ghost laws = { λ flow. name_laws flow.names.now flow.code.now };

    fn copy(&self, alloc: Global, state: &Row<u8>) -> Result<Row<u8>, NoMemory> {
        Ok(Row::of(state.items().to_vec(alloc)?))
    }

    fn join(&self, alloc: Global, left: &Row<u8>, right: &Row<u8>) -> Result<Row<u8>, NoMemory> {
        either(alloc, self.names, left.items(), right.items())
    }

    fn transfer(
        &self,
        alloc: Global,
        at: u32,
        before: &Row<u8>,
    ) -> Result<Row<Edge<Row<u8>>>, NoMemory> {
        match self.code.get(at as usize) {
            None => Ok(Row::new(alloc)),
            Some((name, left, right)) => edges_to(
                alloc,
                self.names,
                self.code.len(),
                *name,
                &[*left, *right],
                before,
            ),
        }
    }

    fn entry(&self, alloc: Global) -> Result<Row<u8>, NoMemory> {
        Ok(Row::new(alloc))
    }

    fn rank(&self, state: &Row<u8>) -> u64 {
        state.items().len() as u64
    }

    fn height(&self) -> u64 {
        self.names.len() as u64
    }
}

/// The names that the ways to each place have met.
fn met(alloc: Global, names: &[u8], code: &[(u8, u32, u32)]) -> Result<Table<Row<u8>>, NoMemory>
    requires { length code.now < 2 ^ 32 }
    ensures { IfOk result (λ table. IsLeastClosed (name_flow names.now code.now) (length code.now) table.rows) }
{
    let flow = NameFlow { names, code };
    solve(alloc, &flow, code.len() as u32)
}

/// Place 0 branches, 3 joins its two ways and goes back to 2, and nothing goes to 4.
#[test]
fn joins_loops_and_leaves_unreached_places_out(rt: HostRuntime) -> Result<(), Fail> {
    let code = [
        (b'a', 1, 2),
        (b'b', 3, 9),
        (b'c', 3, 9),
        (b'd', 2, 5),
        (b'e', 5, 9),
        (b'f', 9, 9),
    ];
    let wanted = [
        Some(""),
        Some("a"),
        Some("abcd"),
        Some("abcd"),
        None,
        Some("abcd"),
    ];
    let table = met(rt.alloc(), b"abcdef", &code)?;
    let rows = table.rows.items();
    assert_eq!(rt; rows.len(), wanted.len());
    for (row, names) in rows.iter().zip(wanted.iter()) {
        match (row, names) {
            (Some(set), Some(text)) => assert!(rt; set.items() == text.as_bytes()),
            (None, None) => {}
            _ => return Err(Fail::from("reached where it is not, or not where it is")),
        }
    }
    Ok(())
}
