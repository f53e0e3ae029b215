// Where the parts of a dossier begin among its nodes (form/specs/Codes.antt).
// Form 5: the shapes from `low` to `high` go as two numbers: of a `RangeInclusive` `inside`, `run` and `compare` would have to ask that it is not spent.
ghost use Rattle.std.specs.Prelude.{◌≡◌, ◌≤◌, ◌<◌};
ghost use Rattle.parser.specs.Sections.{PartOf, Part, Sized, Skips, Inside, RunsTo, Behind, Sectioned};

use form::node;
use form::shapes::{DECLARED, ELEMENT, GIVEN, GIVEN_ENTRY, OPERATION_ENTRY, PREDICATE};
use lexical::classes::at_or;

// The nodes of a dossier: the first `end` of some numbers; what is not there reads as 0.
// Form 6: its end may lie past the last number: a slice up to it would ask each caller that it lies inside, where what is promised here holds for any end.
#[derive(Clone, Copy)]
pub struct Nodes<'a> {
    pub numbers: &'a [u16],
    pub end: usize,
}

// The numbers at which begin the contents' entries of operations, the given sets, the two states, the three conditions and the operations.
#[derive(Clone, Copy)]
pub struct Bounds {
    pub entries: usize,
    pub givens: usize,
    pub abstracts: usize,
    pub concretes: usize,
    pub ainit: usize,
    pub cinit: usize,
    pub retrieve: usize,
    pub operations: usize,
}

// The variables of the two states, by their nodes.
#[derive(Clone, Copy)]
pub struct States<'a> {
    pub abstracts: &'a [u16],
    pub concretes: &'a [u16],
}

// The nodes from one place to another; none where the places are not in order.
pub fn between(nodes: &[u16], from: usize, to: usize) -> &[u16]
    ensures { PartOf nodes.now from to result.now }
{
    nodes.get(from..to).unwrap_or(&nodes[..0])
}

// How many numbers the nodes of an item have: behind a declared name stands its type, and a predicate says how many follow.
fn item(shape: u16, count: u16) -> usize
    ensures { Sized shape count result }
{
    match shape {
        DECLARED => node::DECLARATION,
        PREDICATE => node::SIZE + usize::from(count),
        _ => node::SIZE,
    }
}

impl Nodes<'_> {
    // A number of the node at a place.
    // Form 1: where no node can stand it is 0, no node's shape, as `Part` of specs/Sections.antt says; with an Option five of the eight calls (three places, a shape, a
    // count) would say what stands for `None`, 0 as here, and `inside` would take `is_some_and`.
    pub(crate) fn part(&self, at: usize, k: usize) -> u16
        requires { k ≤ 3 }
        ensures { Part self.now.numbers.now at self.now.end k result }
    {
        if self.end.saturating_sub(at) < node::SIZE {
            return 0;
        }
        at_or(self.numbers, at + k, 0)
    }

    // The place behind the item that stands at a place; the end where it would leave the nodes, and where none stands there.
    pub fn skip(&self, at: usize) -> usize
        ensures { Skips self.now.numbers.now self.now.end at result }
    {
        let shape = self.part(at, node::SHAPE);
        let count = self.part(at, node::A);
        at.saturating_add(item(shape, count)).min(self.end)
    }

    // Does an item of one of the shapes low to high stand at a place?
    fn inside(&self, at: usize, low: u16, high: u16) -> bool
        ensures { Inside self.now.numbers.now self.now.end low high at result }
    {
        node::SIZE <= self.end.saturating_sub(at)
            && (low..=high).contains(&self.part(at, node::SHAPE))
    }

    // The place behind the items of the shapes low to high that stand at a place; the end where none stands there.
    // Form 3: how far an item goes, says its first node.
    pub fn run(&self, at: usize, low: u16, high: u16) -> usize
        ensures { (at ≤ self.now.end → RunsTo self.now.numbers.now self.now.end low high at result) × (self.now.end < at → result ≡ self.now.end) }
    {
        let mut i = at.min(self.end);
        while self.inside(i, low, high) {
            i = self.skip(i);
        }
        i
    }

    // The place behind a state: its heading, declarations and predicate.
    fn state(&self, at: usize) -> usize
        ensures { Behind self.now.numbers.now self.now.end at result }
    {
        let first = self.skip(at);
        let last = self.run(first, DECLARED, DECLARED);
        self.skip(last)
    }

    pub fn sections(&self) -> Bounds
        ensures { Sectioned self.now.numbers.now self.now.end result }
    {
        let entries = self.run(0, GIVEN_ENTRY, GIVEN_ENTRY);
        let givens = self.run(entries, OPERATION_ENTRY, OPERATION_ENTRY);
        let abstracts = self.run(givens, GIVEN, ELEMENT);
        let concretes = self.state(abstracts);
        let ainit = self.state(concretes);
        let cinit = self.skip(ainit);
        let retrieve = self.skip(cinit);
        let operations = self.skip(retrieve);
        Bounds {
            entries,
            givens,
            abstracts,
            concretes,
            ainit,
            cinit,
            retrieve,
            operations,
        }
    }
}
