// The groups of variables: how many each one has, and the places of their nodes.
ghost use Rattle.std.specs.Prelude.{◌≡◌, ◌+◌, ◌*◌, ◌≤◌, ◌<◌, length};
ghost use Rattle.search_groups.specs.GroupPromises.{Picked, PickedAll, GroupPut, OperationPut, RowsPut, Grouped};

use form::name_endings::{INPUT, OUTPUT, PLAIN};
use form::node;
use lexical::{bounds, endings};
use node_spans::{Parts, between, span};

// How many variables a group has at most. A row has one number more. In front are the rows of both states, the abstract one first; behind them each operation has two, of its inputs and of its outputs.
// Form 1: limits of document 01 and lengths made of them, no kinds.
const VARIABLES: usize = bounds::VARIABLES as usize;

const INPUTS: usize = bounds::INPUTS as usize;

const OUTPUTS: usize = bounds::OUTPUTS as usize;

pub const STATE_ROW: usize = VARIABLES + 1;

pub const STATES_ROWS: usize = STATE_ROW + STATE_ROW;

pub const INPUTS_ROW: usize = INPUTS + 1;

pub const OPERATION_ROWS: usize = INPUTS_ROW + OUTPUTS + 1;

pub use form::node::GROUPS;

// The place of a declaration behind c others, where the number x of its name leaves `ending` when divided by 4 and there is room: how many there are then.
// Form 6: the row has the count as its first number, which is written when all places are known; a struct of both would have `pick` and `picked` promise one
// equation more each, that they hand back the row that they were given.
fn pick(x: u16, at: usize, ending: u16, c: usize, places: &mut [u16]) -> usize
    requires { (at ≤ 65535) × (c ≤ length places.old) × (length places.old ≤ 65535) }
    ensures { Picked x at ending c places.old places.new result }
{
    if x % endings::COUNT != ending || places.len() <= c {
        return c;
    }
    places[c] = at as u16;
    c + 1
}

// Of the declarations between two places, two nodes each: those places, as many as there is room for, and how many they are.
fn picked(nodes: &[u16], from: usize, to: usize, ending: u16, places: &mut [u16]) -> usize
    requires { (from ≤ 65535) × (to ≤ 65535) × (length places.old ≤ 65535) }
    ensures { PickedAll nodes.now from to ending places.old places.new result }
{
    let code = between(nodes, from, to);
    let mut c: usize = 0;
    for (k, d) in code.chunks_exact(node::DECLARATION).enumerate() {
        c = pick(d[node::A], from + node::DECLARATION * k, ending, c, places);
    }
    c
}

// A row: how many, their places, and zeros behind them.
fn group(nodes: &[u16], from: usize, to: usize, ending: u16, row: &mut [u16])
    requires { (from ≤ 65535) × (to ≤ 65535) × (1 ≤ length row.old) × (length row.old ≤ 9) }
    ensures { GroupPut nodes.now from to ending row.old row.new }
{
    let c = picked(nodes, from, to, ending, &mut row[1..]);
    row[1 + c..].fill(0);
    row[0] = c as u16;
}

// The rows of the operation k: its inputs, and its outputs.
fn operation(p: &Parts<'_>, k: usize, rows: &mut [u16])
    requires { (k < 65536) × (length rows.old ≡ 8) }
    ensures { OperationPut p.now.nodes.now p.now.spans.now (9 + 4 * k) rows.old rows.new }
{
    let o = p.operation(k);
    group(p.nodes, o.first, o.last, INPUT, &mut rows[..INPUTS_ROW]);
    group(p.nodes, o.first, o.last, OUTPUT, &mut rows[INPUTS_ROW..]);
}

fn operation_rows(p: &Parts<'_>, out: &mut [u16; GROUPS])
    ensures { RowsPut p.now.nodes.now p.now.spans.now p.now.operations out.old out.new }
{
    // Form 3: what the library promises of `chunks_exact_mut` says nothing of what the array ends as, and that is what is promised here.
    for k in 0..p.operations.min(span::MOST) {
        let at = STATES_ROWS + OPERATION_ROWS * k;
        operation(p, k, &mut out[at..at + OPERATION_ROWS]);
    }
}

// The groups of a dossier, in front of the lent array.
pub fn groups(p: &Parts<'_>, out: &mut [u16; GROUPS])
    ensures { Grouped p.now.nodes.now p.now.spans.now p.now.operations out.old out.new }
{
    let a = p.span(span::ABSTRACT_FIRST);
    let b = p.span(span::ABSTRACT_LAST);
    let c = p.span(span::CONCRETE_FIRST);
    let d = p.span(span::CONCRETE_LAST);
    group(p.nodes, a, b, PLAIN, &mut out[..STATE_ROW]);
    group(p.nodes, c, d, PLAIN, &mut out[STATE_ROW..STATES_ROWS]);
    operation_rows(p, out);
}
