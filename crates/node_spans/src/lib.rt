// Where the declarations and the predicates of a dossier stand among its nodes.
// Form 6: the spans are an array of fixed length that the caller lends (document 01), with a place of its own for each number; what `operation` answers is a
// place among the nodes.
// Form 5: `k < 65536` bounds the sum that `span::of_operation` makes; a type of an operation's number with that bound would be made in each loop over
// operations, and the bound shown there as it is shown for the clause now.
#![tactic(auto)]

ghost use Rattle.std.specs.Prelude.{◌≡◌, ◌+◌, ◌*◌, ◌≤◌, ◌<◌, length, take};
ghost use Rattle.parser.specs.Sections.{PartOf};
ghost use Rattle.node_spans.specs.Spans.{Spanned, span};
ghost use Rattle.node_spans.specs.StateSpans.{state_first};
ghost use Rattle.node_spans.specs.SpanPromises.{NumberPut, Three, StatePut, OperationPut, OperationsPut};

use form::shapes::DECLARED;
use lexical::classes::at_or;
use parser::sections::Nodes;
pub use parser::sections::{States, between};

pub mod span;

use span::State;

// The nodes of a dossier, or those of its table, which stand in the same places; where its parts stand among them; and how many operations it has.
// How long the array is stands beside it, since a proof does not find it behind a reference to the struct.
#[derive(Clone, Copy)]
pub struct Parts<'a> {
    pub nodes: &'a [u16],
    pub spans: &'a [u16; span::COUNT],
    pub operations: usize,
    ghost long: { length spans.now ≡ 80 },
}

impl<'a> Parts<'a> {
    // The number k of the spans.
    pub fn span(&self, k: usize) -> usize
        ensures { (result ≡ span self.now.spans.now k) × (result < 65536) }
    {
        let spans = self.spans;
        span_at(spans, k)
    }

    // The numbers of the operation k.
    pub fn operation(&self, k: usize) -> OperationSpans
        requires { k < 65536 }
        ensures first { result.first ≡ span self.now.spans.now (9 + 4 * k) }
        ensures last { result.last ≡ span self.now.spans.now (9 + 4 * k + 1) }
        ensures middle { result.middle ≡ span self.now.spans.now (9 + 4 * k + 2) }
        ensures end { result.end ≡ span self.now.spans.now (9 + 4 * k + 3) }
        ensures small { (result.first < 65536) × (result.last < 65536) }
    {
        let spans = self.spans;
        operation_spans(spans, k)
    }

    // The nodes of the variables of a state.
    pub fn variables(&self, state: State) -> &'a [u16]
        ensures { PartOf self.now.nodes.now (span self.now.spans.now (state_first state)) (span self.now.spans.now (state_first state + 1)) result.now }
    {
        let k = state.first();
        between(self.nodes, self.span(k), self.span(k + span::STATE_LAST))
    }

    // The nodes of the variables of both states.
    pub fn states(&self) -> States<'a>
        ensures abstracts { PartOf self.now.nodes.now (span self.now.spans.now 0) (span self.now.spans.now 1) result.abstracts.now }
        ensures concretes { PartOf self.now.nodes.now (span self.now.spans.now 3) (span self.now.spans.now 4) result.concretes.now }
    {
        States {
            abstracts: self.variables(State::Abstract),
            concretes: self.variables(State::Concrete),
        }
    }

    // The nodes of an operation's parameters.
    pub fn parameters(&self, o: &OperationSpans) -> &'a [u16]
        ensures { PartOf self.now.nodes.now o.now.first o.now.last result.now }
    {
        between(self.nodes, o.first, o.last)
    }
}

// Of an operation: where its parameters begin and end, and where its two predicates end.
#[derive(Clone, Copy)]
pub struct OperationSpans {
    pub first: usize,
    pub last: usize,
    pub middle: usize,
    pub end: usize,
}

// A number of the spans; behind their end it is 0, as `type_rules::kinds::look` has it.
pub fn span_at(spans: &[u16], k: usize) -> usize
    ensures { (result ≡ span spans.now k) × (result < 65536) }
{
    usize::from(at_or(spans, k, 0))
}

// The numbers of the operation k.
pub fn operation_spans(spans: &[u16], k: usize) -> OperationSpans
    requires { k < 65536 }
    ensures first { result.first ≡ span spans.now (9 + 4 * k) }
    ensures last { result.last ≡ span spans.now (9 + 4 * k + 1) }
    ensures middle { result.middle ≡ span spans.now (9 + 4 * k + 2) }
    ensures end { result.end ≡ span spans.now (9 + 4 * k + 3) }
    ensures small { (result.first < 65536) × (result.last < 65536) }
{
    let at = span::of_operation(k);
    OperationSpans {
        first: span_at(spans, at),
        last: span_at(spans, at + span::LAST),
        middle: span_at(spans, at + span::MIDDLE),
        end: span_at(spans, at + span::END),
    }
}

// The number n in the place k.
// Form 1: the arrays that the caller lends have numbers of 16 bits and nothing else (document 01): 0 stands for a number above them, and neither the places
// among a dossier's nodes nor the rows of its conjuncts are as many.
pub fn put_number(numbers: &mut [u16], k: usize, n: usize)
    requires { k < length numbers.old }
    ensures { NumberPut k n numbers.old numbers.new }
{
    numbers[k] = u16::try_from(n).unwrap_or(0);
}

// Three numbers, in front of a part of the spans.
fn three(part: &mut [u16], x: usize, y: usize, z: usize)
    requires { 3 ≤ length part.old }
    ensures { Three x y z part.old part.new }
{
    put_number(part, 0, x);
    put_number(part, 1, y);
    put_number(part, 2, z);
}

// Of the state between two places: where its variables begin and end, and its predicate ends.
fn state(made: &Nodes<'_>, from: usize, to: usize, part: &mut [u16])
    requires { 3 ≤ length part.old }
    ensures { StatePut (take made.now.end made.now.numbers.now) made.now.end from to part.old part.new }
{
    let first = made.skip(from);
    let last = made.run(first, DECLARED, DECLARED);
    three(part, first, last, to);
}

// Of the operation at a place: where its parameters begin and end, and its two predicates end; the place behind it.
fn operation(made: &Nodes<'_>, from: usize, part: &mut [u16]) -> usize
    requires { 4 ≤ length part.old }
    ensures { OperationPut (take made.now.end made.now.numbers.now) made.now.end from part.old part.new result }
{
    let first = made.skip(from);
    let last = made.run(first, DECLARED, DECLARED);
    let middle = made.skip(last);
    let end = made.skip(middle);
    three(part, first, last, middle);
    put_number(part, span::END, end);
    end
}

// The operations from a place up to the end, 16 at the most, and how many they are.
fn operations(made: &Nodes<'_>, from: usize, spans: &mut [u16; span::COUNT]) -> usize
    ensures { OperationsPut (take made.now.end made.now.numbers.now) made.now.end from spans.old spans.new result }
{
    let mut at = from;
    // Form 3: what the library promises of `chunks_exact_mut` says nothing of what the array ends as, and that is what is promised here.
    for k in 0..span::MOST {
        if made.end <= at {
            return k;
        }
        let n = span::of_operation(k);
        at = operation(made, at, &mut spans[n..n + span::OPERATION]);
    }
    span::MOST
}

// The numbers of a dossier's spans, in front of the lent array; how many operations it has.
pub fn spans(made: &Nodes<'_>, spans: &mut [u16; span::COUNT]) -> usize
    ensures { Spanned made.now.numbers.now made.now.end spans.old spans.new result }
{
    let s = made.sections();
    state(
        made,
        s.abstracts,
        s.concretes,
        &mut spans[span::ABSTRACT_FIRST..=span::ABSTRACT_END],
    );
    state(
        made,
        s.concretes,
        s.ainit,
        &mut spans[span::CONCRETE_FIRST..=span::CONCRETE_END],
    );
    three(
        &mut spans[span::AINIT_END..=span::RETRIEVE_END],
        s.cinit,
        s.retrieve,
        s.operations,
    );
    operations(made, s.operations, spans)
}
