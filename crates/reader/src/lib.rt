// The reading of a text: the passes of document 01 in their order.
// Form 5: the caller of `read` lends each array, of fixed length (document 01), and one pass writes it; a struct of arrays to be written would have `read` and
// `leave` each say that they are still those which were lent. Who reads texts has them in a struct that owns them.
#![tactic(auto)]

ghost use Rattle.std.specs.Prelude.{◌≡◌, length};
ghost use Rattle.type_rules.specs.Passes.{refused_key};
ghost use Rattle.type_rules.specs.TypesByNumber.{fault_key};
ghost use Rattle.node_spans.specs.Spans.{Spanned};
ghost use Rattle.static_rules.specs.Limits.{binding_faults, size_faults};
ghost use Rattle.reader.specs.Promises.{Reads, Named, Tabled, Finds, Faults, Leaves};

use binding_counts::bindings::bindings;
use form::node::NUMBERS;
use lexical::bounds::SYMBOLS;
use limits::measures::measures;
use names::{NAMES, SIZES, given_sets, least_fault};
use node_spans::{Parts, span};
use parser::sections::{Nodes, between};
use parser::{Structure, located, parse};
use refusals::Fault;
use search_groups::conjuncts::{FIRSTS, conjuncts};
use search_groups::groups::GROUPS;
use tables::passes::write;
use type_rules::entries::{FREE, Kind};
use type_rules::kinds::all_well;

// What a text is: how many symbols it has, and how many numbers the nodes of its dossier; or its refusal, with the place in bytes. Its symbols stand in the
// first three arrays, and its nodes in the fourth where numbers 1 to 7 found no fault. The others are for the evaluator, and written only where nothing is
// refused: where the parts of the dossier stand, the table, the groups of variables, the conjuncts.
pub fn read(
    text: &[u8],
    codes: &mut [u8; SYMBOLS],
    starts: &mut [u16; SYMBOLS],
    values: &mut [u16; SYMBOLS],
    nodes: &mut [u16; NUMBERS],
    spans: &mut [u16; span::COUNT],
    table: &mut [u16; NUMBERS],
    groups: &mut [u16; GROUPS],
    rows: &mut [u16; NUMBERS],
    firsts: &mut [u16; FIRSTS],
) -> Result<Structure, Fault>
    ensures { Reads text.now codes.old starts.old values.old nodes.old codes.new starts.new values.new nodes.new spans.old table.old groups.old rows.old firsts.old spans.new table.new groups.new rows.new firsts.new result }
{
    let structure = parse(text, codes, starts, values, nodes)?;
    let starts = &starts[..structure.symbols];
    let made = Nodes {
        numbers: nodes,
        end: structure.numbers,
    };
    passes(&made).map_err(|f| located(f, starts, text.len()))?;
    leave(nodes, structure.numbers, spans, table, groups, rows, firsts);
    Ok(structure)
}

// The least fault of the first pass that has one, with its place by symbols.
fn passes(made: &Nodes<'_>) -> Result<(), Fault>
    ensures { Faults made.now.numbers.now made.now.end (refused_key result) }
{
    names_pass(made)?;
    all_well(bindings_fault(made))?;
    all_well(sizes_fault(made))
}

// Numbers 8 to 11 and 14: the least fault.
fn names_pass(made: &Nodes<'_>) -> Result<(), Fault>
    ensures { Named made.now.numbers.now made.now.end (refused_key result) }
{
    let mut sizes = [0u16; SIZES];
    let at = made.sections();
    least_fault(made, &at, &mut sizes)
}

// The given sets by name, and their sizes.
// Form 6: both arrays answered as a struct are copied, 32 KiB at each call: `read` then runs 1.02 to 1.03 times as many instructions (plain Rust at opt-level 3,
// three texts of tests/speed).
fn given_table(made: &Nodes<'_>, names: &mut [Kind], sizes: &mut [u16; SIZES])
    ensures { Tabled made.now.numbers.now made.now.end (length names.old) names.new sizes.new }
{
    let at = made.sections();
    let _ = given_sets(between(made.numbers, at.givens, at.abstracts), names, sizes);
}

// The parts of the dossier whose nodes are the first `end` numbers; where they stand is written in a lent array.
fn parts_of<'a>(numbers: &'a [u16], end: usize, places: &'a mut [u16; span::COUNT]) -> Parts<'a>
    ensures { (result.nodes.now ≡ numbers.now) × Spanned numbers.now end places.old result.spans.now result.operations }
{
    let made = Nodes { numbers, end };
    let operations = node_spans::spans(&made, places);
    Parts {
        nodes: numbers,
        spans: places,
        operations,
    }
}

// Number 12, where names have no fault.
fn bindings_fault(made: &Nodes<'_>) -> Option<Fault>
    ensures { Finds binding_faults made.now.numbers.now made.now.end (fault_key result) }
{
    let mut names = [FREE; NAMES];
    let mut sizes = [0u16; SIZES];
    let mut places = [0u16; span::COUNT];
    given_table(made, &mut names, &mut sizes);
    let parts = parts_of(made.numbers, made.end, &mut places);
    bindings(&parts, &names, &sizes)
}

// Number 13, where names have no fault.
fn sizes_fault(made: &Nodes<'_>) -> Option<Fault>
    ensures { Finds size_faults made.now.numbers.now made.now.end (fault_key result) }
{
    let mut places = [0u16; span::COUNT];
    let parts = parts_of(made.numbers, made.end, &mut places);
    measures(&parts)
}

// What the evaluator needs of a dossier without faults.
// Form 2: `parts_of` is not called for `spans`: that array would be lent to the `Parts` that come back, and a function that gives back what it lends can promise
// nothing of what the array holds behind that (an `ensures*` of it gets no proof from the borrow checker), while `leave` promises what `spans` holds.
fn leave(
    nodes: &[u16; NUMBERS],
    m: usize,
    spans: &mut [u16; span::COUNT],
    table: &mut [u16; NUMBERS],
    groups: &mut [u16; GROUPS],
    rows: &mut [u16; NUMBERS],
    firsts: &mut [u16; FIRSTS],
)
    ensures { Leaves nodes.now m spans.old table.old groups.old rows.old firsts.old spans.new table.new groups.new rows.new firsts.new }
{
    let mut names = [FREE; NAMES];
    let mut sizes = [0u16; SIZES];
    let made = Nodes {
        numbers: nodes,
        end: m,
    };
    given_table(&made, &mut names, &mut sizes);
    let at = made.sections();
    let operations = node_spans::spans(&made, spans);
    write(nodes, spans, operations, &at, &mut names, &sizes, table);
    let read = Parts {
        nodes,
        spans,
        operations,
    };
    search_groups::groups::groups(&read, groups);
    let written: &[u16; NUMBERS] = table;
    let resolved = Parts {
        nodes: written,
        spans,
        operations,
    };
    conjuncts(&resolved, rows, firsts);
}
