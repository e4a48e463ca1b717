//! The solver at a small flow, in which a place adds a name to those that the ways to it have met.

ghost use Rattle.std.specs.Prelude.{◌≡◌, ◌<◌, ◌^◌, [], ◌∷◌, true, false, get_or, length, map, filter, nat_lt, IsTrue};
ghost use Rattle.std.specs.Prelude.{IfOk, IfSome};
ghost use Rattle.cjc_tests_rules.specs.Tables.Names.{name_flow, union, edge, Goes, AllGo};
ghost use Rattle.cjc_types.specs.Fixpoint.Kept.{StandsForLeast};

use cjc_tests_files::cases::{cut, number};
use cjc_types::fixpoint::{
    Edge, Flow, Repeating, Table, Walk, all_marks, marks_of, moved_on, solve,
};
use cjc_vtable::bytes::{NoMemory, Row};
use std::alloc::Global;
use std::test::*;

/// A place has a name and two targets; a target past the last place leaves the code.
#[derive(Drop)]
struct NameFlow<'a> {
    names: &'a [u8],
    code: &'a [(u8, u32, u32)],
}

/// The names of either set.
fn either(alloc: Global, names: &[u8], xs: &[u8], ys: &[u8]) -> Result<Row<u8>, NoMemory>
    ensures { IfOk result (λ set. set ≡ union names.now xs.now ys.now) }
{
    let mut set = Row::new(alloc);
    for name in names {
        if xs.contains(name) || ys.contains(name) {
            set.push(*name)?;
        }
    }
    Ok(set)
}

/// An edge to each target that is a place.
fn edges_to(
    alloc: Global,
    names: &[u8],
    places: usize,
    name: u8,
    targets: &[u32],
    set: &Row<u8>,
) -> Result<Row<Edge<Row<u8>>>, NoMemory>
    ensures { IfOk result (λ edges. edges
        ≡ map (edge (union names.now (name ∷ []) set.now)) (filter (λ to. nat_lt to places) targets.now)) }
{
    let mut edges = Row::new(alloc);
    for to in targets {
        if (*to as usize) < places {
            let state = either(alloc, names, &[name], set.items())?;
            edges.push(Edge { to: *to, state })?;
        }
    }
    Ok(edges)
}

impl Flow for NameFlow<'_> {
    ghost use Rattle.cjc_tests_rules.specs.Tables.NameLaws.{name_laws};
    ghost use Rattle.cjc_tests_rules.specs.Tables.Names.{name_flow};

    type State = Row<u8>;

    ghost meaning = { λ flow. name_flow flow.names.now flow.code.now };

    ghost laws = { λ flow. name_laws flow.names.now flow.code.now };

    fn copy(&self, alloc: Global, state: &Row<u8>) -> Result<Row<u8>, NoMemory> {
        Ok(Row::of(state.items().to_vec(alloc)?))
    }

    fn join(&self, alloc: Global, left: &Row<u8>, right: &Row<u8>) -> Result<Row<u8>, NoMemory> {
        either(alloc, self.names, left.items(), right.items())
    }

    fn transfer(
        &self,
        alloc: Global,
        at: u32,
        before: &Row<u8>,
    ) -> Result<Row<Edge<Row<u8>>>, NoMemory> {
        match self.code.get(at as usize) {
            None => Ok(Row::new(alloc)),
            Some((name, left, right)) => edges_to(
                alloc,
                self.names,
                self.code.len(),
                *name,
                &[*left, *right],
                before,
            ),
        }
    }

    fn entry(&self, alloc: Global) -> Result<Row<u8>, NoMemory> {
        Ok(Row::new(alloc))
    }

    fn rank(&self, state: &Row<u8>) -> u64 {
        state.items().len() as u64
    }

    fn height(&self) -> u64 {
        self.names.len() as u64
    }
}

impl Repeating for NameFlow<'_> {
    ghost use Rattle.cjc_tests_rules.specs.Tables.Names.{name_flow};
    ghost use Rattle.cjc_types.specs.Fixpoint.Working.ShortenedLaws.{never};

    ghost again = { λ _ _. false };

    ghost repeated = { λ flow. never (name_flow flow.names.now flow.code.now) };

    fn repeats(&self, _at: u32) -> bool {
        false
    }

    fn pass(&self, alloc: Global, at: u32, before: Row<u8>) -> Result<Option<Row<u8>>, NoMemory> {
        moved_on(alloc, self, at, Some(before))
    }
}

/// Whether a target is the next place, or marked, or none.
fn goes(marked: &[bool], at: usize, to: u32) -> bool
    requires { at < length marked.now }
    ensures { IsTrue result → Goes marked.now at to }
{
    let target = to as usize;
    if target >= marked.len() {
        return true;
    }
    if target == at + 1 {
        return true;
    }
    marked[target]
}

/// Whether both targets of a place are so.
fn both_go(marked: &[bool], at: usize, place: (u8, u32, u32)) -> bool
    requires { at < length marked.now }
    ensures left { IsTrue result → Goes marked.now at place.1 }
    ensures right { IsTrue result → Goes marked.now at place.2 }
{
    if goes(marked, at, place.1) {
        goes(marked, at, place.2)
    } else {
        false
    }
}

/// Whether all are.
fn all_go(code: &[(u8, u32, u32)], marked: &[bool]) -> bool
    requires { length marked.now ≡ length code.now }
    ensures { IsTrue result → AllGo code.now marked.now (length code.now) }
{
    for at in 0..code.len() {
        if !both_go(marked, at, code[at]) {
            return false;
        }
    }
    true
}

/// Whether the first place is marked.
fn begins(marked: &[bool]) -> bool
    ensures { IsTrue result → get_or marked.now 0 false ≡ true }
{
    match marked.first() {
        Some(first) => *first,
        None => false,
    }
}

/// The names that the ways to each place have met, with rows at marked places; none where a target
/// is not marked.
fn met(
    alloc: Global,
    names: &[u8],
    code: &[(u8, u32, u32)],
    marked: &[bool],
) -> Result<Option<Table<Row<u8>>>, NoMemory>
    requires few { length code.now < 2 ^ 32 }
    requires sized { length marked.now ≡ length code.now }
    ensures { IfOk result (λ table. IfSome table (λ t. StandsForLeast (name_flow names.now code.now) (length code.now)
        t.marks t.rows)) }
{
    if !begins(marked) {
        return Ok(None);
    }
    if !all_go(code, marked) {
        return Ok(None);
    }
    let marks = marks_of(alloc, marked)?;
    let flow = NameFlow { names, code };
    let table = solve(alloc, &flow, code.len() as u32, &marks)?;
    Ok(Some(table))
}

/// The same with a row for each place.
fn all_rows(
    alloc: Global,
    names: &[u8],
    code: &[(u8, u32, u32)],
) -> Result<Row<Option<Row<u8>>>, NoMemory>
    requires { length code.now < 2 ^ 32 }
{
    let flow = NameFlow { names, code };
    let places = code.len() as u32;
    let marks = all_marks(alloc, places)?;
    let table = solve(alloc, &flow, places, &marks)?;
    let Table { marks: _, rows } = table;
    Ok(rows)
}

/// Whether two rows are the same.
fn is_same(row: &Option<Row<u8>>, other: &Option<Row<u8>>) -> bool {
    match (row, other) {
        (Some(row), Some(other)) => row.items() == other.items(),
        (None, None) => true,
        _ => false,
    }
}

/// Whether walks, of both kinds, give the rows that the solver gives.
fn agrees(
    alloc: Global,
    names: &[u8],
    code: &[(u8, u32, u32)],
    marked: &[bool],
) -> Result<bool, NoMemory>
    requires few { length code.now < 2 ^ 32 }
    requires sized { length marked.now ≡ length code.now }
{
    let table = match met(alloc, names, code, marked)? {
        Some(table) => table,
        None => return Ok(false),
    };
    let rows = all_rows(alloc, names, code)?;
    let flow = NameFlow { names, code };
    let places = code.len() as u32;
    let mut walk = Walk::new(&flow, &table, places);
    for row in rows.items() {
        match walk.next(alloc)? {
            Some((_, given)) => {
                if !is_same(&given, row) {
                    return Ok(false);
                }
            }
            None => return Ok(false),
        }
    }
    let mut lent = Walk::new(&flow, &table, places);
    for row in rows.items() {
        if lent.place().is_none() {
            return Ok(false);
        }
        if !is_same(lent.row(), row) {
            return Ok(false);
        }
        lent.advance(alloc)?;
    }
    Ok(walk.next(alloc)?.is_none() && lent.place().is_none())
}

/// Whether a row has these names, or is not reached.
fn has_names(row: &Option<Row<u8>>, wanted: &str) -> bool {
    match row {
        Some(set) => set.items() == wanted.as_bytes(),
        None => wanted == "unreached",
    }
}

/// A place has a name and two targets, and then the names that the ways to it have met. Place 0 branches, 3 joins its
/// two ways and goes back to 2, and nothing goes to 4.
const PLACES: &str = "\
a 1 2 =
b 3 9 = a
c 3 9 = abcd
d 2 5 = abcd
e 5 9 = unreached
f 9 9 = abcd";

fn place_of(line: &str) -> Result<(u8, u32, u32), NoMemory> {
    let (place, _) = cut(line, " =");
    let (name, targets) = cut(place, " ");
    let (left, right) = cut(targets, " ");
    match name.as_bytes() {
        [name] => Ok((*name, number(left)?, number(right)?)),
        _ => Err(NoMemory),
    }
}

fn code_of(alloc: Global, lines: &str) -> Result<Vec<(u8, u32, u32)>, NoMemory> {
    let mut code = Vec::new(alloc);
    for line in lines.lines() {
        code.push(place_of(line)?)?;
    }
    Ok(code)
}

/// Whether the rows have the names of these lines, and no row is left.
fn are_rows(rows: &[Option<Row<u8>>], lines: &str) -> bool {
    let mut rest = lines;
    for row in rows {
        let (line, more) = cut(rest, "\n");
        let (_, names) = cut(line, " = ");
        if !has_names(row, names) {
            return false;
        }
        rest = more;
    }
    rest.is_empty()
}

fn are_solved(alloc: Global, lines: &str) -> Result<bool, NoMemory> {
    let code = code_of(alloc, lines)?;
    if code.len() > 6 {
        return Ok(false);
    }
    let rows = all_rows(alloc, b"abcdef", code.as_slice())?;
    Ok(are_rows(rows.items(), lines))
}

#[test]
fn joins_loops_and_leaves_unreached_places_out(rt: HostRuntime) {
    assert!(rt; matches!(are_solved(rt.alloc(), PLACES), Ok(true)));
}

/// The number behind another, in an order that looks random.
fn behind(seed: u64) -> u64 {
    seed.wrapping_mul(6364136223846793005)
        .wrapping_add(1442695040888963407)
}

/// A random place, which mostly goes on to the next.
fn random_place(seed: u64, at: u32) -> (u8, u32, u32)
    requires { at < 12 }
{
    let name = b'a' + ((seed >> 20) % 10) as u8;
    let far = ((seed >> 33) % 14) as u32;
    let next = at + 1;
    match (seed >> 50) % 8 {
        0 => (name, far, far),
        1 => (name, far, next),
        2 => (name, next, next),
        3 => (name, 99, 99),
        _ => (name, next, 99),
    }
}

/// Marks a target that is not the next place.
fn mark(marked: &mut [bool; 12], at: u32, to: u32)
    requires { at < 12 }
{
    if to < 12 && to != at + 1 {
        marked[to as usize] = true;
    }
}

/// Whether walks of both kinds agree over twelve random places from a number on; the number behind them.
fn agrees_from(alloc: Global, from: u64) -> Result<(bool, u64), NoMemory> {
    let mut seed = from;
    let mut code = [(b'a', 0u32, 0u32); 12];
    let mut marked = [false; 12];
    marked[0] = true;
    for at in 0..12u32 {
        seed = behind(seed);
        let place = random_place(seed, at);
        mark(&mut marked, at, place.1);
        code[at as usize] = place;
    }
    Ok((agrees(alloc, b"abcdefghij", &code, &marked)?, seed))
}

/// How many of so many random flows agree.
fn agreeing(alloc: Global, flows: u32) -> Result<u32, NoMemory> {
    let mut seed = 12345;
    let mut count: u32 = 0;
    for _ in 0..flows {
        let (is_so, next) = agrees_from(alloc, seed)?;
        if is_so {
            count = count.saturating_add(1);
        }
        seed = next;
    }
    Ok(count)
}

#[test]
fn walks_give_the_rows_of_the_solver(rt: HostRuntime) {
    assert!(rt; matches!(agreeing(rt.alloc(), 300), Ok(300)));
}
