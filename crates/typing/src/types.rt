// The walk over the nodes of terms and predicates, from their ends: a binder is met before what stands in its reach. One cycle of functions, in one file.
// Each function reads the tree in which its nodes end; where a part ends is known only behind the one that follows it.
// Form 5: nodes and sizes go together, but the nodes are cut at 13 places, where a struct of both would be made anew, `&Reading { code: &r.code[..at], sizes: r.sizes }` for `&code[..at]`
// and `sizes`. Names are written and sizes read: a struct of both would be lent to be written, and each function would promise besides that the sizes stay.
ghost use Rattle.std.specs.Prelude.{◌≡◌, ◌+◌, length};
ghost use Rattle.type_rules.specs.TypesByNumber.{fault_key, key, judged_key, Saw, DomainSeen, TermSeen, ItemsSeen, PairSeen, PairsSeen, PredSeen, PrefixFits, PrefixType, OperatorFits, ComparisonFits};
ghost use Rattle.typing.specs.BoundPromise.{BoundSeen};
ghost use Rattle.typing.specs.EndedNodes.{ended};
ghost use Rattle.typing.specs.SidesPromise.{SidesSeen};
ghost use Rattle.type_rules.specs.declared.Node.{Node};

use form::{node, operator_codes, shapes};
use refusals::Refusal;
use type_rules::entries::Kind;
use type_rules::faults::LeastFault;
use type_rules::kinds::{
    bound_least_fault, brace_fault, entry, judge_least, last_node, member_fits, pairs_fault, put,
    range_fits, related_fits, shared_kind,
};
use type_rules::{Node, Seen, entries};

// Prefixes by the code of their symbol.
fn prefix_fits(o: u16, k: Kind) -> bool
    ensures { PrefixFits o k result }
{
    match o {
        operator_codes::DASH => k.is_number(),
        operator_codes::SIZE => k.is_set(),
        _ => k.is_pairs(),
    }
}

pub fn prefix_type(o: u16, k: Kind) -> Kind
    ensures { PrefixType o k result }
{
    match o {
        operator_codes::DOM => k.dom_of(),
        operator_codes::RAN => k.ran_of(),
        _ => entries::NUMBER,
    }
}

// Operators and comparisons likewise. Those of numbers are + - *, and < <= of comparisons; the others stand between two of one type.
fn operator_fits(o: u16, k: Kind, l: Kind) -> bool
    ensures { OperatorFits o k l result }
{
    match o {
        operator_codes::PLUS | operator_codes::DASH | operator_codes::TIMES => {
            k.is_number() && l.is_number()
        }
        _ => k.is_set() && k == l,
    }
}

fn comparison_fits(o: u16, k: Kind, l: Kind) -> bool
    ensures { ComparisonFits o k l result }
{
    match o {
        operator_codes::EQUALS | operator_codes::DIFFERS => k == l,
        _ => k.is_number() && l.is_number(),
    }
}

// No nodes of a tree end here.
// Form 1: the nodes are always those of trees, so that this is never read; with an Option the 24 calls that go on in the walk would each take a `?` for a case that does not come, and
// the one that binds a name would put it back before that.
fn nothing() -> Seen
    ensures { result.start ≡ 0 }
{
    Seen {
        kind: entries::NONE,
        fault: LeastFault::none(),
        start: 0,
    }
}

// What a name is bound over, or the range after `in`: the last node.
fn domain(code: &[u16], names: &[Kind]) -> Seen
    ensures { DomainSeen code.now (length code.now) names.now result }
{
    let Some(at) = code.len().checked_sub(node::SIZE) else {
        return nothing();
    };
    let n = last_node(code);
    if code[at + node::SHAPE] == shapes::SET {
        let e = entry(names, usize::from(n.a));
        let fault = LeastFault::unless(e.is_given(), u32::from(n.place), Refusal::NameUnknown);
        return Seen {
            kind: e.element_of(),
            fault,
            start: at,
        };
    }
    let fault = LeastFault::unless(range_fits(n.a, n.b), u32::from(n.place), Refusal::WideType);
    Seen {
        kind: entries::NUMBER,
        fault,
        start: at,
    }
}

// The term whose nodes are the last.
#[cycle(types)]
fn term(code: &[u16], names: &mut [Kind], sizes: &[u16]) -> Seen
    ensures { TermSeen code.now (length code.now) names.old names.new sizes.now result }
{
    let Some(at) = code.len().checked_sub(node::SIZE) else {
        return nothing();
    };
    let front = &code[..at];
    let n = last_node(code);
    match code[at + node::SHAPE] {
        shapes::NUMBER => Seen {
            kind: entries::NUMBER,
            fault: LeastFault::none(),
            start: at,
        },
        shapes::NAME => named(front, n, names, sizes),
        shapes::PREFIX => prefixed(front, n, names, sizes),
        shapes::DIVIDED => divided(front, n, names, sizes),
        shapes::BINARY => joined(front, n, names, sizes),
        shapes::SUCH => such(front, n, names, sizes),
        shapes::LISTED => listed(front, n, names, sizes),
        shapes::PAIRS => paired(front, n, names, sizes),
        shapes::EMPTY_SET => empty_set(front, n, names, sizes),
        shapes::EMPTY_PAIRS => empty_pairs(front, n, names, sizes),
        _ => nothing(),
    }
}

// A name.
fn named(front: &[u16], n: Node, names: &[Kind], sizes: &[u16]) -> Seen
    ensures { TermSeen (ended front.now 2 n) (length front.now + 4) names.now names.now sizes.now result }
{
    let e = entry(names, usize::from(n.a));
    let fault = LeastFault::unless(e.in_reach(), u32::from(n.place), Refusal::NameUnknown);
    Seen {
        kind: e,
        fault,
        start: front.len(),
    }
}

// empty G.
fn empty_set(front: &[u16], n: Node, names: &[Kind], sizes: &[u16]) -> Seen
    ensures { TermSeen (ended front.now 9 n) (length front.now + 4) names.now names.now sizes.now result }
{
    let e = entry(names, usize::from(n.a));
    let fault = LeastFault::unless(e.is_given(), u32::from(n.place) + 1, Refusal::NameUnknown);
    Seen {
        kind: e.element_of().set_of(),
        fault,
        start: front.len(),
    }
}

// empty G H.
fn empty_pairs(front: &[u16], n: Node, names: &[Kind], sizes: &[u16]) -> Seen
    ensures { TermSeen (ended front.now 10 n) (length front.now + 4) names.now names.now sizes.now result }
{
    let g = entry(names, usize::from(n.a));
    let h = entry(names, usize::from(n.b));
    let i = usize::from(n.place);
    Seen {
        kind: g.element_of().pair_with(h.element_of()),
        fault: LeastFault::of(pairs_fault(sizes, g, h, i + 1, i + 2, i)),
        start: front.len(),
    }
}

// Two terms, one behind the other: their types, the lesser fault of both, and where the nodes of the first begin.
#[derive(Clone, Copy)]
struct Sides {
    first: Kind,
    second: Kind,
    fault: LeastFault,
    start: usize,
}

impl Sides {
    // A whole of this type at the node n, where the two fit.
    // Form 7: `fits` is what a test of the two types says, as in `judge_least`; as a closure it would be written `|| ..` at each of the three calls.
    fn whole(self, kind: Kind, fits: bool, n: Node) -> Seen
        ensures { Saw result kind (judged_key fits (key n.place 10) (fault_key self.fault)) self.start }
    {
        let fault = judge_least(fits, n.place, Refusal::TypesMisfit, self.fault);
        Seen {
            kind,
            fault,
            start: self.start,
        }
    }
}

// Two terms, one behind the other.
#[cycle(types)]
fn two_terms(code: &[u16], names: &mut [Kind], sizes: &[u16]) -> Sides
    ensures { SidesSeen code.now (length code.now) names.old names.new sizes.now result }
{
    let u = term(code, names, sizes);
    let t = term(&code[..u.start], names, sizes);
    let fault = t.fault.lesser(u.fault);
    Sides {
        first: t.kind,
        second: u.kind,
        fault,
        start: t.start,
    }
}

// A prefix before a term.
#[cycle(types)]
fn prefixed(front: &[u16], n: Node, names: &mut [Kind], sizes: &[u16]) -> Seen
    ensures { TermSeen (ended front.now 3 n) (length front.now + 4) names.old names.new sizes.now result }
{
    let t = term(front, names, sizes);
    let fault = judge_least(
        prefix_fits(n.a, t.kind),
        n.place,
        Refusal::TypesMisfit,
        t.fault,
    );
    Seen {
        kind: prefix_type(n.a, t.kind),
        fault,
        start: t.start,
    }
}

// t div n, t mod n. The second number, less REMAINDER for a remainder, is 1 where a - stands in front of the divisor.
#[cycle(types)]
fn divided(front: &[u16], n: Node, names: &mut [Kind], sizes: &[u16]) -> Seen
    ensures { TermSeen (ended front.now 4 n) (length front.now + 4) names.old names.new sizes.now result }
{
    let t = term(front, names, sizes);
    let zero = LeastFault::unless(
        0 < n.a,
        u32::from(n.place) + 1 + u32::from(n.b % shapes::REMAINDER),
        Refusal::ZeroDivisor,
    );
    let fault = judge_least(
        t.kind.is_number(),
        n.place,
        Refusal::TypesMisfit,
        t.fault.lesser(zero),
    );
    Seen {
        kind: entries::NUMBER,
        fault,
        start: t.start,
    }
}

// Two terms with an operator between them.
#[cycle(types)]
fn joined(front: &[u16], n: Node, names: &mut [Kind], sizes: &[u16]) -> Seen
    ensures { TermSeen (ended front.now 5 n) (length front.now + 4) names.old names.new sizes.now result }
{
    let s = two_terms(front, names, sizes);
    let fits = operator_fits(n.a, s.first, s.second);
    s.whole(s.first, fits, n)
}

// {x : G | p}.
#[cycle(types)]
fn such(front: &[u16], n: Node, names: &mut [Kind], sizes: &[u16]) -> Seen
    ensures { TermSeen (ended front.now 6 n) (length front.now + 4) names.old names.new sizes.now result }
{
    let b = bound(front, n, names, sizes);
    Seen {
        kind: b.kind.set_of(),
        ..b
    }
}

// A predicate with the name of the node n bound over the domain behind it. The kind is what the name is.
#[cycle(types)]
fn bound(front: &[u16], n: Node, names: &mut [Kind], sizes: &[u16]) -> Seen
    ensures { BoundSeen front.now (length front.now) n names.old names.new sizes.now result }
{
    let x = usize::from(n.a);
    let d = domain(front, names);
    let was = entry(names, x);
    put(names, x, d.kind);
    let p = pred(&front[..d.start], names, sizes);
    put(names, x, was);
    let fault = bound_least_fault(n.place, was, d.fault, p.fault);
    Seen {
        kind: d.kind,
        fault,
        start: p.start,
    }
}

// {t, ...}.
#[cycle(types)]
fn listed(front: &[u16], n: Node, names: &mut [Kind], sizes: &[u16]) -> Seen
    ensures { TermSeen (ended front.now 7 n) (length front.now + 4) names.old names.new sizes.now result }
{
    let t = items(front, names, sizes);
    let fault = judge_least(t.kind.is_element(), n.place, Refusal::TypesMisfit, t.fault);
    Seen {
        kind: t.kind.set_of(),
        fault,
        start: t.start,
    }
}

// {t |-> t, ...}.
#[cycle(types)]
fn paired(front: &[u16], n: Node, names: &mut [Kind], sizes: &[u16]) -> Seen
    ensures { TermSeen (ended front.now 8 n) (length front.now + 4) names.old names.new sizes.now result }
{
    let t = pairs(front, names, sizes);
    let fault = t
        .fault
        .or(LeastFault::of(brace_fault(sizes, t.kind, n.place)));
    Seen {
        kind: t.kind,
        fault,
        start: t.start,
    }
}

// The terms of a brace.
#[cycle(types)]
fn items(code: &[u16], names: &mut [Kind], sizes: &[u16]) -> Seen
    ensures { ItemsSeen code.now (length code.now) names.old names.new sizes.now result }
{
    let Some(at) = code.len().checked_sub(node::SIZE) else {
        return nothing();
    };
    if code[at + node::SHAPE] == shapes::LAST {
        return term(&code[..at], names, sizes);
    }
    let l = items(&code[..at], names, sizes);
    let t = term(&code[..l.start], names, sizes);
    let fault = t.fault.lesser(l.fault);
    Seen {
        kind: shared_kind(t.kind, l.kind),
        fault,
        start: t.start,
    }
}

// The pairs of a brace; the last two terms before the node of the last pair.
// Form 2: `items` with `pair` for `term`. Tried on a small cycle of this shape: a generic function over a trait that `term` and `pair` implement; the borrow checker does not
// cover a method of an implementation that leads back to its own cycle of calls. A switch or a closure would tell at each call which of them is meant.
#[cycle(types)]
fn pairs(code: &[u16], names: &mut [Kind], sizes: &[u16]) -> Seen
    ensures { PairsSeen code.now (length code.now) names.old names.new sizes.now result }
{
    let Some(at) = code.len().checked_sub(node::SIZE) else {
        return nothing();
    };
    if code[at + node::SHAPE] == shapes::LAST {
        return pair(&code[..at], names, sizes);
    }
    let l = pairs(&code[..at], names, sizes);
    let t = pair(&code[..l.start], names, sizes);
    let fault = t.fault.lesser(l.fault);
    Seen {
        kind: shared_kind(t.kind, l.kind),
        fault,
        start: t.start,
    }
}

// A pair of a brace: two terms, one behind the other.
#[cycle(types)]
fn pair(code: &[u16], names: &mut [Kind], sizes: &[u16]) -> Seen
    ensures { PairSeen code.now (length code.now) names.old names.new sizes.now result }
{
    let s = two_terms(code, names, sizes);
    Seen {
        kind: s.first.pair_with(s.second),
        fault: s.fault,
        start: s.start,
    }
}

// The predicate whose nodes are the last.
// Form 1: a predicate has no type, and its kind is NONE. With a struct of fault and start alone, `nothing` and the promise `Saw` would each stand once more for it, and `whole`, which
// `joined`, `compared` and `member` share, would answer a fault of which each of the three makes its own answer.
#[cycle(types)]
pub fn pred(code: &[u16], names: &mut [Kind], sizes: &[u16]) -> Seen
    ensures { PredSeen code.now (length code.now) names.old names.new sizes.now result }
{
    let Some(at) = code.len().checked_sub(node::SIZE) else {
        return nothing();
    };
    let front = &code[..at];
    let n = last_node(code);
    match code[at + node::SHAPE] {
        shapes::TRUTH => Seen {
            kind: entries::NONE,
            fault: LeastFault::none(),
            start: at,
        },
        shapes::NEGATION => pred(front, names, sizes),
        shapes::CONNECTED => connected(front, names, sizes),
        shapes::COMPARED => compared(front, n, names, sizes),
        shapes::MEMBER => member(front, n, names, sizes),
        shapes::WITHIN => within(front, n, names, sizes),
        shapes::RELATED => related(front, n, names, sizes),
        shapes::QUANTIFIED => quantified(front, n, names, sizes),
        _ => nothing(),
    }
}

// Two predicates with a connective between them.
#[cycle(types)]
fn connected(front: &[u16], names: &mut [Kind], sizes: &[u16]) -> Seen
    ensures { (n : Node) → PredSeen (ended front.now 3 n) (length front.now + 4) names.old names.new sizes.now result }
{
    let q = pred(front, names, sizes);
    let p = pred(&front[..q.start], names, sizes);
    let fault = p.fault.lesser(q.fault);
    Seen {
        kind: entries::NONE,
        fault,
        start: p.start,
    }
}

// t = u, and the other comparisons.
#[cycle(types)]
fn compared(front: &[u16], n: Node, names: &mut [Kind], sizes: &[u16]) -> Seen
    ensures { PredSeen (ended front.now 4 n) (length front.now + 4) names.old names.new sizes.now result }
{
    let s = two_terms(front, names, sizes);
    let fits = comparison_fits(n.a, s.first, s.second);
    s.whole(entries::NONE, fits, n)
}

// t in u.
#[cycle(types)]
fn member(front: &[u16], n: Node, names: &mut [Kind], sizes: &[u16]) -> Seen
    ensures { PredSeen (ended front.now 5 n) (length front.now + 4) names.old names.new sizes.now result }
{
    let s = two_terms(front, names, sizes);
    let fits = member_fits(s.first, s.second);
    s.whole(entries::NONE, fits, n)
}

// t in a..b.
#[cycle(types)]
fn within(front: &[u16], n: Node, names: &mut [Kind], sizes: &[u16]) -> Seen
    ensures { PredSeen (ended front.now 6 n) (length front.now + 4) names.old names.new sizes.now result }
{
    let d = domain(front, names);
    let t = term(&front[..d.start], names, sizes);
    let parts = t.fault.lesser(d.fault);
    let fault = judge_least(t.kind.is_number(), n.place, Refusal::TypesMisfit, parts);
    Seen {
        kind: entries::NONE,
        fault,
        start: t.start,
    }
}

// t |-> u in v.
#[cycle(types)]
fn related(front: &[u16], n: Node, names: &mut [Kind], sizes: &[u16]) -> Seen
    ensures { PredSeen (ended front.now 7 n) (length front.now + 4) names.old names.new sizes.now result }
{
    let v = term(front, names, sizes);
    let s = two_terms(&front[..v.start], names, sizes);
    let parts = s.fault.lesser(v.fault);
    let fault = judge_least(
        related_fits(s.first, s.second, v.kind),
        n.place,
        Refusal::TypesMisfit,
        parts,
    );
    Seen {
        kind: entries::NONE,
        fault,
        start: s.start,
    }
}

// (forall x : T @ p), and the other quantifiers.
#[cycle(types)]
fn quantified(front: &[u16], n: Node, names: &mut [Kind], sizes: &[u16]) -> Seen
    ensures { PredSeen (ended front.now 8 n) (length front.now + 4) names.old names.new sizes.now result }
{
    let b = bound(front, n, names, sizes);
    Seen {
        kind: entries::NONE,
        ..b
    }
}
