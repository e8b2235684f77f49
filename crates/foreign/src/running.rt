ghost use Rattle.amounts.specs.Amounts.{amounts};
ghost use Rattle.foreign.specs.Running.{Counts, CountsNothing, made_of, read_or_none};
ghost use Rattle.leaf.specs.Kind.{Lawful, admits as admitted};
ghost use Rattle.list.specs.Held.{Leads, SameTable, Settled, held_of};
ghost use Rattle.list.specs.Lists.{All, any};
ghost use Rattle.list.specs.Runs.{Call};
ghost use Rattle.list.specs.Runs.Call.{insert};
ghost use Rattle.std.specs.Bool.{OnFalse, OnTrue};
ghost use Rattle.std.specs.Prelude.{◌≡◌, ◌≤◌, true, List, [], ◌++◌, length, take, map, filter, IfOk};

use amounts::AmountLeaf;
use leaf::Leaf;
use list::Leaves;
use std::alloc::{AllocError, Global};

/// What a run of a list came to. Where memory ran out, `done` is false and all else is zero.
#[repr(C)]
#[derive(Clone, Copy)]
pub struct Run {
    pub done: bool,
    /// How many leaves were read.
    pub leaves: usize,
    /// How many of the questions were answered yes.
    pub yes: usize,
    /// How many lines there were, 0 where the list was not read.
    pub lines: usize,
}

// What is told where memory ran out.
const NOT_DONE: Run = Run {
    done: false,
    leaves: 0,
    yes: 0,
    lines: 0,
};

// Reads the leaves that stand one after the other into the table, up to the end of either or a refusal, and answers how many.
fn read_leaves<V: Copy, L: Leaf<V>>(bytes: &[u8], table: &mut [L]) -> usize
    ensures within { result ≤ length table.new }
    ensures places { length table.new ≡ length table.old }
    ensures made { take result table.new ≡ made_of L.kind (length table.old) bytes.now 0 }
{
    let mut at = 0;
    for n in 0..table.len() {
        match L::read(bytes, at, &mut table[n]) {
            Ok(end) => at = end,
            Err(_) => return n,
        }
    }
    table.len()
}

// Inserts leaves in turn.
fn insert_leaves<V: Copy, L: Leaf<V>>(list: &mut Leaves<V, L>, made: &[L])
    ensures table { SameTable list.old list.new }
    ensures run { (cs : List (Call V L)) → All (Lawful L.kind) made.now → Leads L.kind cs list.old → Leads L.kind (cs ++ map insert made.now) list.new }
{
    for leaf in made {
        let _ = list.insert(*leaf);
    }
}

// How many of the values a held leaf admits.
fn count_admitted<V: Copy, L: Leaf<V>>(list: &mut Leaves<V, L>, values: &[V]) -> usize
    ensures same { list.new ≡ list.old }
    ensures within { result ≤ length values.now }
    ensures answer { result ≡ length (filter (λ v. any (λ x. admitted L.kind x v) (held_of list.old)) values.now) }
{
    let mut yes = 0;
    for v in values {
        yes += usize::from(list.admits(*v));
    }
    yes
}

// Reads the list so many times, and answers how many lines the first reading left.
fn read_lines<V: Copy, L: Leaf<V>>(list: &mut Leaves<V, L>, readings: usize) -> usize
    ensures { Settled L.kind list.old → result ≡ read_or_none L.kind readings (held_of list.old) }
{
    if readings == 0 {
        return 0;
    }
    let lines = list.count();
    for _ in 1..readings {
        let _ = list.count();
    }
    lines
}

// A list in the table takes the leaves of the bytes, answers the questions and is read so many times.
fn run_list<V: Copy, L: Leaf<V>>(
    made: &mut [L],
    table: &mut [L],
    bytes: &[u8],
    values: &[V],
    readings: usize,
) -> Run
    requires { length made.old ≡ length table.old }
    ensures counts { Counts L.kind (length table.old) bytes.now values.now readings result }
    ensures done { result.done ≡ true }
{
    let leaves = read_leaves(bytes, made);
    let mut list = Leaves::open(table);
    insert_leaves(&mut list, &made[..leaves]);
    let yes = count_admitted(&mut list, values);
    let lines = read_lines(&mut list, readings);
    Run {
        done: true,
        leaves,
        yes,
        lines,
    }
}

// The leaves of amounts in the bytes read into a table on the heap.
fn make_amounts(heap: Global, places: usize, bytes: &[u8]) -> Result<Run, AllocError>
    ensures { IfOk result (λ r. Counts amounts places bytes.now [] 0 r × (r.done ≡ true)) }
{
    let mut made = Vec::from_elem(heap, AmountLeaf::blank(), places)?;
    Ok(Run {
        done: true,
        leaves: read_leaves(bytes, &mut made),
        yes: 0,
        lines: 0,
    })
}

// A list of amounts run in tables on the heap.
fn run_amounts(
    heap: Global,
    places: usize,
    bytes: &[u8],
    values: &[i64],
    readings: usize,
) -> Result<Run, AllocError>
    ensures { IfOk result (λ r. Counts amounts places bytes.now values.now readings r × (r.done ≡ true)) }
{
    let mut made = Vec::from_elem(heap, AmountLeaf::blank(), places)?;
    let mut table = Vec::from_elem(heap, AmountLeaf::blank(), places)?;
    Ok(run_list(&mut made, &mut table, bytes, values, readings))
}

/// How many amount leaves stand one after the other in the bytes, at most so many as there are places: what a run begins with, for who times
/// one.
#[unsafe(no_mangle)]
pub extern "C" fn rule_lines_make(heap: Global, places: usize, bytes: &[u8]) -> Run
    ensures counts { OnTrue result.done (Counts amounts places bytes.now [] 0 result) }
    ensures nothing { OnFalse result.done (CountsNothing result) }
{
    make_amounts(heap, places, bytes).unwrap_or(NOT_DONE)
}

/// Amount leaves that stand one after the other in the bytes go into a new list of so many places, then come the questions, then so many
/// readings: how many leaves, yeses and lines there were.
#[unsafe(no_mangle)]
pub extern "C" fn rule_lines_run(
    heap: Global,
    places: usize,
    bytes: &[u8],
    values: &[i64],
    readings: usize,
) -> Run
    ensures counts { OnTrue result.done (Counts amounts places bytes.now values.now readings result) }
    ensures nothing { OnFalse result.done (CountsNothing result) }
{
    run_amounts(heap, places, bytes, values, readings).unwrap_or(NOT_DONE)
}
