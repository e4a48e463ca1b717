//! The solver and a walk at a small flow, in which a place adds a name to those that the ways to it have met. With a
//! mark at each place the walk hands out copies of the rows, which no command has it do.

ghost use Rattle.std.specs.Prelude.{◌≡◌, ◌<◌, ◌^◌, [], ◌∷◌, false, length, map, filter, nat_lt, IfOk};
ghost use Rattle.cjc_tests_rules.specs.Flows.Names.{union, edge};

use cjc_subset::bytes::{NoMemory, Row};
use cjc_types::fixpoint::{Edge, Flow, Repeating, Walk, all_marks, moved_on, solve};
use std::alloc::Global;
use std::test::*;

/// A place has a name and two targets; a target past the last place leaves the code.
#[derive(Drop)]
struct NameFlow<'a> {
    names: &'a [u8],
    code: &'a [(u8, u32, u32)],
}

/// The names of either set.
fn either(alloc: Global, names: &[u8], xs: &[u8], ys: &[u8]) -> Result<Row<u8>, NoMemory>
    ensures { IfOk result (λ set. set ≡ union names.now xs.now ys.now) }
{
    let mut set = Row::new(alloc);
    for name in names {
        if xs.contains(name) || ys.contains(name) {
            set.push(*name)?;
        }
    }
    Ok(set)
}

/// An edge to each target that is a place.
fn edges_to(
    alloc: Global,
    names: &[u8],
    places: usize,
    name: u8,
    targets: &[u32],
    set: &Row<u8>,
) -> Result<Row<Edge<Row<u8>>>, NoMemory>
    ensures { IfOk result (λ edges. edges
        ≡ map (edge (union names.now (name ∷ []) set.now)) (filter (λ to. nat_lt to places) targets.now)) }
{
    let mut edges = Row::new(alloc);
    for to in targets {
        if (*to as usize) < places {
            let state = either(alloc, names, &[name], set.items())?;
            edges.push(Edge { to: *to, state })?;
        }
    }
    Ok(edges)
}

impl Flow for NameFlow<'_> {
    ghost use Rattle.cjc_tests_rules.specs.Flows.NameLaws.{name_laws};
    ghost use Rattle.cjc_tests_rules.specs.Flows.Names.{name_flow};

    type State = Row<u8>;

    ghost meaning = { λ flow. name_flow flow.names.now flow.code.now };

    ghost laws = { λ flow. name_laws flow.names.now flow.code.now };

    fn copy(&self, alloc: Global, state: &Row<u8>) -> Result<Row<u8>, NoMemory> {
        Ok(Row::of(state.items().to_vec(alloc)?))
    }

    fn join(&self, alloc: Global, left: &Row<u8>, right: &Row<u8>) -> Result<Row<u8>, NoMemory> {
        either(alloc, self.names, left.items(), right.items())
    }

    fn transfer(
        &self,
        alloc: Global,
        at: u32,
        before: &Row<u8>,
    ) -> Result<Row<Edge<Row<u8>>>, NoMemory> {
        match self.code.get(at as usize) {
            None => Ok(Row::new(alloc)),
            Some((name, left, right)) => edges_to(
                alloc,
                self.names,
                self.code.len(),
                *name,
                &[*left, *right],
                before,
            ),
        }
    }

    fn entry(&self, alloc: Global) -> Result<Row<u8>, NoMemory> {
        Ok(Row::new(alloc))
    }

    fn rank(&self, state: &Row<u8>) -> u64 {
        state.items().len() as u64
    }

    fn height(&self) -> u64 {
        self.names.len() as u64
    }
}

impl Repeating for NameFlow<'_> {
    ghost use Rattle.cjc_tests_rules.specs.Flows.Names.{name_flow};
    ghost use Rattle.cjc_types.specs.Fixpoint.Working.ShortenedLaws.{never};

    ghost again = { λ _ _. false };

    ghost repeated = { λ flow. never (name_flow flow.names.now flow.code.now) };

    fn repeats(&self, _at: u32) -> bool {
        false
    }

    fn pass(&self, alloc: Global, at: u32, before: Row<u8>) -> Result<Option<Row<u8>>, NoMemory> {
        moved_on(alloc, self, at, Some(before))
    }
}

/// Whether a row has these names; none is that of a place to which no way leads.
fn has_names(row: &Option<Row<u8>>, wanted: &str) -> bool {
    match row {
        Some(set) => set.items() == wanted.as_bytes(),
        None => wanted == "unreached",
    }
}

/// Whether a walk gives these rows, one for each place, and no more.
fn gives(
    alloc: Global,
    names: &[u8],
    code: &[(u8, u32, u32)],
    wanted: &[&str],
) -> Result<bool, NoMemory>
    requires { length code.now < 2 ^ 32 }
{
    let flow = NameFlow { names, code };
    let places = code.len() as u32;
    let marks = all_marks(alloc, places)?;
    let table = solve(alloc, &flow, places, &marks)?;
    let mut walk = Walk::new(&flow, &table, places);
    for names in wanted {
        match walk.next(alloc)? {
            Some((_, row)) => {
                if !has_names(&row, names) {
                    return Ok(false);
                }
            }
            None => return Ok(false),
        }
    }
    Ok(walk.next(alloc)?.is_none())
}

/// Place 0 branches, 3 joins its two ways and goes back to 2, and nothing goes to 4.
const CODE: [(u8, u32, u32); 6] = [
    (b'a', 1, 2),
    (b'b', 3, 9),
    (b'c', 3, 9),
    (b'd', 2, 5),
    (b'e', 5, 9),
    (b'f', 9, 9),
];

/// The names that the ways to each place have met.
const MET: [&str; 6] = ["", "a", "abcd", "abcd", "unreached", "abcd"];

#[test]
fn a_walk_gives_the_rows_of_the_solver(rt: HostRuntime) {
    assert!(rt; matches!(gives(rt.alloc(), b"abcdef", &CODE, &MET), Ok(true)));
}
