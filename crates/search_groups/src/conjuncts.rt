// The conjuncts of each predicate, read off the table: where each one's nodes are, and the last variable of every group that it mentions.
// Form 5: the table is cut where the nodes in question end, and `from` is where they begin. A struct of the two would be made anew at each of the three calls of `conjoin`,
// `&Piece { table: &table[..m], from }` for `&table[..m], from`.
ghost use Rattle.std.specs.Prelude.{◌≡◌, [], ◌∷◌, ◌+◌, ◌≤◌, ◌<◌, length};
ghost use Rattle.search_groups.specs.Conjuncts.{last_in, conjunct_row};
ghost use Rattle.search_groups.specs.GroupPromises.{slots_at, piece, Noted, LastsOf, Middle, RowPut, Conjoined};
ghost use Rattle.search_groups.specs.GroupPromises.{Place, ContextPut, ListPut, Listed};

use crate::contexts::{ABSTRACT_STATE, CONCRETE_STATE, OPERATIONS, RETRIEVE, SIDES};
use form::node;
use form::operator_codes::AND;
use lexical::bounds;
use node_spans::{Parts, between, put_number, span};
use table_nodes::{slots, table_shapes};

// How many variables a state has at most; inputs and outputs an operation.
// Form 1: limits of document 01, no kinds; they are bytes there, and numbers of 16 bits in the table that the caller lends.
const VARIABLES: u16 = bounds::VARIABLES as u16;

const INPUTS: u16 = bounds::INPUTS as u16;

const OUTPUTS: u16 = bounds::OUTPUTS as u16;

// How many numbers the row of a conjunct has: where its nodes begin and end, and the last variable of each group.
// Form 1: this and the next two are lengths and a limit, no kinds.
pub const ROW: usize = 8;

// The largest number of a row.
const LARGEST: usize = u16::MAX as usize;

// A number for each predicate and one behind them, with room to spare.
pub const FIRSTS: usize = 40;

// The place, counted from 1, that a slot has in the group of n slots from `base` on.
// Form 1: another slot has 0, as the rows have, and `max` then leaves what was found before; with an Option `write` would turn each of the six numbers of a row
// back into that.
fn rank(a: u16, base: u16, n: u16) -> u16
    requires { base + n ≤ 64 }
    ensures { result ≡ last_in base n (a ∷ []) }
{
    if (base..base + n).contains(&a) {
        a - base + 1
    } else {
        0
    }
}

// The last variable of each group that some nodes mention, counted from 1. The last two are those of primed concrete and abstract variables.
// Form 1: numbers of a row, which the caller lends, and there 0 says that the group has none: with six Options `write` would turn each back into its number.
#[derive(Clone, Copy, Default)]
struct Mentioned {
    abstracts: u16,
    concretes: u16,
    inputs: u16,
    outputs: u16,
    cprimed: u16,
    aprimed: u16,
}

// The same with a node more, by its shape and its first number: most nodes have no slot.
fn noted(l: Mentioned, k: u16, a: u16) -> Mentioned
    ensures { Noted k a l result }
{
    if k != table_shapes::SLOT {
        return l;
    }
    Mentioned {
        abstracts: l.abstracts.max(rank(a, slots::ABSTRACT, VARIABLES)),
        concretes: l.concretes.max(rank(a, slots::CONCRETE, VARIABLES)),
        inputs: l.inputs.max(rank(a, slots::INPUTS, INPUTS)),
        outputs: l.outputs.max(rank(a, slots::OUTPUTS, OUTPUTS)),
        cprimed: l.cprimed.max(rank(a, slots::CONCRETE_PRIMED, VARIABLES)),
        aprimed: l.aprimed.max(rank(a, slots::ABSTRACT_PRIMED, VARIABLES)),
    }
}

// Those of some nodes, in one walk.
fn lasts(nodes: &[u16]) -> Mentioned
    ensures { LastsOf (slots_at nodes.now) result }
{
    let mut best = Mentioned::default();
    for n in nodes.chunks_exact(node::SIZE) {
        best = noted(best, n[node::SHAPE], n[node::A]);
    }
    best
}

// The row of one conjunct, whose nodes are those of the table from a place on.
fn write(table: &[u16], from: usize, row: &mut [u16])
    requires { (from ≤ length table.now) × (length table.now ≤ 65535) × (length row.old ≡ 8) }
    ensures { row.new ≡ conjunct_row from (length table.now) (slots_at (piece table.now from (length table.now))) }
{
    let l = lasts(&table[from..]);
    row.copy_from_slice(&[
        from as u16,
        table.len() as u16,
        l.abstracts,
        l.concretes,
        l.inputs,
        l.outputs,
        l.cprimed,
        l.aprimed,
    ]);
}

// Where the left part of an `and` ends; none where the last node is no `and`.
fn middle(table: &[u16], from: usize) -> Option<usize>
    ensures { Middle table.now from (length table.now) result }
{
    let at = table.len().checked_sub(node::SIZE)?;
    if table[at + node::SHAPE] != table_shapes::CONNECTED || table[at + node::A] != AND {
        return None;
    }
    let m = usize::from(table[at + node::PLACE]);
    (from..=at).contains(&m).then_some(m)
}

// Rows in the lent array, and the place behind them.
#[derive(Drop)]
struct Rows<'a> {
    out: &'a mut [u16],
    at: usize,
}

impl<'a> Rows<'a> {
    // The row of one conjunct, where there is room for it.
    fn add(&mut self, table: &[u16], from: usize)
        ensures same_rows { self.new.out.ghost_name ≡ self.old.out.ghost_name }
        ensures put { RowPut table.now from (length table.now) self.old.at self.old.out.now self.new.out.now self.new.at }
    {
        let room = self.out.len();
        if from <= table.len()
            && table.len() <= LARGEST
            && room <= LARGEST
            && ROW <= room
            && self.at <= room - ROW
        {
            write(table, from, &mut self.out[self.at..self.at + ROW]);
            self.at += ROW;
        }
    }

    // The rows of the conjuncts of the predicate whose nodes are those of the table from a place on.
    fn conjoin(&mut self, table: &[u16], from: usize)
        ensures same_rows { self.new.out.ghost_name ≡ self.old.out.ghost_name }
        ensures put { Conjoined table.now from (length table.now) self.old.at self.old.out.now self.new.out.now self.new.at }
    {
        if let Some(m) = middle(table, from) {
            self.conjoin(&table[..m], from);
            self.conjoin(&table[..table.len() - node::SIZE], m);
            return;
        }
        self.add(table, from);
    }
}

// Which one of the spans the k-th context's predicate begins at.
fn place(k: usize) -> usize
    requires { k < 37 }
    ensures { Place k result }
{
    match k {
        ABSTRACT_STATE => span::ABSTRACT_LAST,
        CONCRETE_STATE..=RETRIEVE => k + span::CONCRETE_FIRST,
        _ => {
            let i = k - OPERATIONS;
            span::of_operation(i / SIDES) + span::LAST + i % SIDES
        }
    }
}

// The rows of one context.
fn context(p: &Parts<'_>, j: usize, rows: &mut Rows<'_>)
    requires { (j + 2 ≤ 80) × (length rows.old.out.now ≤ 65535) }
    ensures same_rows { rows.new.out.ghost_name ≡ rows.old.out.ghost_name }
    ensures put { ContextPut p.now.nodes.now p.now.spans.now j rows.old.at rows.old.out.now rows.new.out.now rows.new.at }
{
    let from = p.span(j);
    let end = p.span(j + 1);
    rows.conjoin(between(p.nodes, 0, end), from + node::SIZE);
}

// All contexts: how many numbers stand before the rows of each, and these.
fn contexts(p: &Parts<'_>, count: usize, out: &mut [u16; node::NUMBERS], firsts: &mut [u16; FIRSTS])
    requires { count ≤ 37 }
    ensures { ListPut p.now.nodes.now p.now.spans.now count out.old out.new firsts.old firsts.new }
{
    let mut rows = Rows { out, at: 0 };
    for k in 0..count {
        put_number(firsts, k, rows.at);
        context(p, place(k), &mut rows);
    }
    put_number(firsts, count, rows.at);
}

// The rows of the conjuncts of a dossier's predicates, in front of the lent array, and how many numbers stand before each predicate's; the nodes are the
// table's.
pub fn conjuncts(p: &Parts<'_>, out: &mut [u16; node::NUMBERS], firsts: &mut [u16; FIRSTS])
    ensures { Listed p.now.nodes.now p.now.spans.now p.now.operations out.old out.new firsts.old firsts.new }
{
    if span::MOST < p.operations {
        return;
    }
    contexts(p, OPERATIONS + SIDES * p.operations, out, firsts);
}
