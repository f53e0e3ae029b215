// Where in a text the names begin that a report shows, and the types of variables: gathered from the reader's arrays into one.
#![tactic(auto)]

ghost use Rattle.std.specs.Prelude.{◌≡◌, ◌+◌, ◌-◌, ◌*◌, ◌<◌, ◌≤◌, get_or, length};
ghost use Rattle.labels.specs.LabelPromises.{name_byte, names_from, variable_of, four_of, Stored, ElementsGathered, TitlesGathered, VariablesGathered};

use form::{node, shapes};
use lexical::{bounds, endings};
use node_spans::{span, span_at};
use parser::sections::Nodes;
pub use search_groups::groups::GROUPS;
use type_rules::kinds::look;

// Form 1: places in one list of numbers, no kinds: 25 clauses name that list, five of them as a field of `Arrays`. As a struct of three arrays they would name three, or, by a Model that joins these, each
// of the three places that are written here and of the seven calls of `label` would have to be shown to be one of the joined list.
// Each given set has as many labels as it may have elements.
pub const ELEMENTS: usize = bounds::ELEMENTS as usize;

const GIVEN_SETS: usize = bounds::GIVEN_SETS as usize;

// Where the labels of operations and of variables begin, how many a variable has, and how many there are.
pub const TITLES: usize = ELEMENTS * GIVEN_SETS;

pub const VARIABLES_FROM: usize = TITLES + span::MOST;

pub const VARIABLE: usize = 4;

pub const LABELS: usize = VARIABLES_FROM + VARIABLE * GROUPS;

// Of a variable's node and of its type's, which is the next one: second size, given sets, shape.
const TYPE_SIZE: usize = node::SIZE;

const TYPE_SIDES: usize = node::SIZE + node::PLACE;

const TYPE_SHAPE: usize = node::SIZE + node::SHAPE;

// A text, and the labels of its names.
#[derive(Clone, Copy)]
pub struct Names<'a> {
    pub text: &'a [u8],
    pub labels: &'a [u16; LABELS],
}

impl Names<'_> {
    // The k-th label, 0 past their end.
    // Form 1: each label that is asked for is before their end; with an Option each caller would have to name the 0 that the contracts have there.
    pub fn label(&self, k: usize) -> u16
        ensures { result ≡ get_or self.now.labels.now k 0 }
    {
        let labels = self.labels;
        look(labels, k)
    }
}

// What reading a text leaves: the nodes of its dossier, where its symbols start, where its parts stand, the table, the groups of variables.
#[derive(Clone, Copy)]
pub struct Sources<'a> {
    pub nodes: Nodes<'a>,
    pub starts: &'a [u16],
    pub spans: &'a [u16],
    pub table: &'a [u16],
    pub groups: &'a [u16],
}

// The first byte of the name whose node stands at q.
fn name_byte(x: &Sources<'_>, q: usize) -> u16
    requires { q < 65536 }
    ensures { result ≡ name_byte x.now.nodes.numbers.now x.now.starts.now q }
{
    look(
        x.starts,
        usize::from(look(x.nodes.numbers, q + node::A) / endings::COUNT),
    )
}

// The eight labels of a given set whose elements' nodes stand from q on; if it has fewer, the last labels are of other nodes, and nobody reads them.
fn gather_set(x: &Sources<'_>, q: usize, labels: &mut [u16])
    requires { (q ≤ 16384) × (length labels.old ≡ 8) }
    ensures { Stored 8 0 (names_from x.now.nodes.numbers.now x.now.starts.now q) labels.old labels.new }
{
    // Form 3: after an adapter of `iter_mut` (`enumerate`, `zip`) nothing is known of what was written.
    for k in 0..ELEMENTS {
        labels[k] = name_byte(x, q + node::SIZE * k);
    }
}

// Of the elements: behind the heading of each given set.
pub fn gather_elements(x: &Sources<'_>, labels: &mut [u16; LABELS])
    requires { x.now.nodes.end ≤ 16384 }
    ensures { ElementsGathered x.now.nodes.numbers.now x.now.starts.now x.now.nodes.end labels.old labels.new }
{
    let nodes = x.nodes;
    let mut q = nodes.sections().givens;
    // Form 3: what the library promises of `chunks_exact_mut` says nothing of what the array ends as, and that is what is promised here.
    for g in 0..GIVEN_SETS {
        let from = nodes.skip(q);
        let at = ELEMENTS * g;
        gather_set(x, from, &mut labels[at..at + ELEMENTS]);
        q = nodes.run(from, shapes::ELEMENT, shapes::ELEMENT);
    }
}

// Of the operations' names.
pub fn gather_titles(x: &Sources<'_>, labels: &mut [u16; LABELS])
    ensures { TitlesGathered x.now.nodes.numbers.now x.now.starts.now x.now.spans.now labels.old labels.new }
{
    // Form 3: as in `gather_set`.
    for j in 0..span::MOST {
        let q = span_at(x.spans, span::of_operation(j));
        labels[TITLES + j] = name_byte(x, q.saturating_sub(node::SIZE));
    }
}

// The four labels of a place of the groups.
fn variable(x: &Sources<'_>, q: usize) -> [u16; VARIABLE]
    requires { q < 65536 }
    ensures { result ≡ four_of (variable_of x.now.nodes.numbers.now x.now.starts.now x.now.table.now q) }
{
    [
        name_byte(x, q),
        look(x.table, q + TYPE_SHAPE),
        look(x.table, q + TYPE_SIDES),
        look(x.table, q + TYPE_SIZE),
    ]
}

// Of the variables in the groups.
pub fn gather_variables(x: &Sources<'_>, labels: &mut [u16; LABELS])
    ensures { VariablesGathered x.now.nodes.numbers.now x.now.starts.now x.now.table.now x.now.groups.now labels.old labels.new }
{
    // Form 3: as in `gather_elements`.
    for i in 0..GROUPS {
        let q = usize::from(look(x.groups, i));
        let at = VARIABLES_FROM + VARIABLE * i;
        labels[at..at + VARIABLE].copy_from_slice(&variable(x, q));
    }
}
