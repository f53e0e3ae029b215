// The walk over the nodes of terms and predicates, from their ends, with the size of each name in a table. One cycle of functions, in one file.
// Each function reads the tree in which its nodes end; where a part ends is known only behind the one that follows it.
ghost use Rattle.std.specs.Prelude.{◌≡◌, ◌+◌, length};
ghost use Rattle.type_rules.specs.TypesByNumber.{fault_key, lesser};
ghost use Rattle.term_sizes.specs.SizesByNumber.{absolute};
ghost use Rattle.term_sizes.specs.SizeWalkPromises.{PrefixBound, OperatorBound, DivisionBound, DomainSized, TermSized, ItemsSized, PairSized, PairsSized, PredSized, BoundSized};
ghost use Rattle.typing.specs.EndedNodes.{ended};
ghost use Rattle.type_rules.specs.declared.Node.{Node};

use crate::Sized;
use form::{node, operator_codes, shapes};
use lexical::bounds::{COUNT_SIZE, LARGEST_NUMBER, LARGEST_SIZE};
use refusals::Refusal;
use type_rules::Node;
use type_rules::faults::LeastFault;
use type_rules::kinds::{judge_least, last_node, look, put};

// Prefixes and operators by the code of their symbol. What is not a number has the size 0.
fn prefix_bound(o: u16, a: u32) -> u32
    ensures { PrefixBound o a result }
{
    match o {
        operator_codes::DASH => a,
        operator_codes::SIZE => COUNT_SIZE as u32,
        _ => 0,
    }
}

fn operator_bound(o: u16, a: u32, b: u32) -> u64
    ensures { OperatorBound o a b result }
{
    let a = u64::from(a);
    let b = u64::from(b);
    match o {
        operator_codes::PLUS | operator_codes::DASH => a + b,
        operator_codes::TIMES => a * b,
        _ => 0,
    }
}

// The size of t div n, of t mod n.
fn division_bound(b: u16, a: u16, t: u32) -> u32
    ensures { DivisionBound b a t result }
{
    if b < shapes::REMAINDER {
        return t;
    }
    u32::from(a)
}

// The absolute value of an end of a range, which stands with the largest number added.
pub fn absolute_of(a: u16) -> u16
    ensures { result ≡ absolute a }
{
    a.abs_diff(LARGEST_NUMBER)
}

// No size and no fault, at `at`; 0 says that no nodes of a tree end.
// Form 1: the nodes are always those of trees, so that the latter is never read; with an Option the 19 calls that go on in the walk would each take a `?` for a case that does not
// come, and the one that binds a name would put its size back before that.
fn bare(at: usize) -> Sized
    ensures { (result.bound ≡ 0) × (fault_key result.fault ≡ 0) × (result.start ≡ at) }
{
    Sized {
        bound: 0,
        fault: LeastFault::none(),
        start: at,
    }
}

// Two parts, the first in front, that are no number together.
fn both(t: Sized, u: Sized) -> Sized
    ensures { (result.bound ≡ 0) × (fault_key result.fault ≡ lesser (fault_key t.fault) (fault_key u.fault)) × (result.start ≡ t.start) }
{
    Sized {
        bound: 0,
        fault: t.fault.lesser(u.fault),
        ..t
    }
}

// What a name is bound over, which has no fault: its size, and where its node begins.
#[derive(Clone, Copy)]
struct Over {
    bound: u16,
    start: usize,
}

// What a name is bound over: the last node.
fn domain(code: &[u16]) -> Over
    ensures { DomainSized code.now (length code.now) result }
{
    let Some(start) = code.len().checked_sub(node::SIZE) else {
        return Over { bound: 0, start: 0 };
    };
    let n = last_node(code);
    if code[start + node::SHAPE] == shapes::SET {
        return Over { bound: 0, start };
    }
    let a = absolute_of(n.a);
    let b = absolute_of(n.b);
    Over {
        bound: a.max(b),
        start,
    }
}

// The term whose nodes are the last.
#[cycle(sizes)]
fn term(code: &[u16], bounds: &mut [u16]) -> Sized
    ensures { TermSized code.now (length code.now) bounds.old bounds.new result }
{
    let Some(at) = code.len().checked_sub(node::SIZE) else {
        return bare(0);
    };
    let front = &code[..at];
    let n = last_node(code);
    match code[at + node::SHAPE] {
        shapes::NUMBER => number(front, n, bounds),
        shapes::NAME => named(front, n, bounds),
        shapes::PREFIX => prefixed(front, n, bounds),
        shapes::DIVIDED => divided(front, n, bounds),
        shapes::BINARY => operated(front, n, bounds),
        shapes::SUCH => bound(front, n, bounds),
        shapes::LISTED => items(front, bounds),
        shapes::PAIRS => pairs(front, bounds),
        shapes::EMPTY_SET | shapes::EMPTY_PAIRS => bare(at),
        _ => bare(0),
    }
}

// A number.
fn number(front: &[u16], n: Node, bounds: &[u16]) -> Sized
    ensures { TermSized (ended front.now 1 n) (length front.now + 4) bounds.now bounds.now result }
{
    Sized {
        bound: u32::from(n.a),
        fault: LeastFault::none(),
        start: front.len(),
    }
}

// A name.
fn named(front: &[u16], n: Node, bounds: &[u16]) -> Sized
    ensures { TermSized (ended front.now 2 n) (length front.now + 4) bounds.now bounds.now result }
{
    let e = look(bounds, usize::from(n.a));
    Sized {
        bound: u32::from(e),
        fault: LeastFault::none(),
        start: front.len(),
    }
}

// A prefix before a term.
#[cycle(sizes)]
fn prefixed(front: &[u16], n: Node, bounds: &mut [u16]) -> Sized
    ensures { TermSized (ended front.now 3 n) (length front.now + 4) bounds.old bounds.new result }
{
    let t = term(front, bounds);
    Sized {
        bound: prefix_bound(n.a, t.bound),
        ..t
    }
}

// t div n, t mod n.
#[cycle(sizes)]
fn divided(front: &[u16], n: Node, bounds: &mut [u16]) -> Sized
    ensures { TermSized (ended front.now 4 n) (length front.now + 4) bounds.old bounds.new result }
{
    let t = term(front, bounds);
    Sized {
        bound: division_bound(n.b, n.a, t.bound),
        ..t
    }
}

// Two terms with an operator between them.
#[cycle(sizes)]
fn operated(front: &[u16], n: Node, bounds: &mut [u16]) -> Sized
    ensures { TermSized (ended front.now 5 n) (length front.now + 4) bounds.old bounds.new result }
{
    let u = term(front, bounds);
    let t = term(&front[..u.start], bounds);
    let m = operator_bound(n.a, t.bound, u.bound);
    let parts = t.fault.lesser(u.fault);
    let fault = judge_least(m <= LARGEST_SIZE, n.place, Refusal::LargeSize, parts);
    Sized {
        bound: m.min(LARGEST_SIZE) as u32,
        fault,
        start: t.start,
    }
}

// A predicate with the name of the node n bound over the domain behind it: {x : G | p}, where the size of x is 0 as G has none; (forall x : T @ p), and the other
// quantifiers.
#[cycle(sizes)]
fn bound(front: &[u16], n: Node, bounds: &mut [u16]) -> Sized
    ensures { BoundSized front.now (length front.now) n bounds.old bounds.new result }
{
    let x = usize::from(n.a);
    let d = domain(front);
    let was = look(bounds, x);
    put(bounds, x, d.bound);
    let p = pred(&front[..d.start], bounds);
    put(bounds, x, was);
    p
}

// The terms of a brace, which is no number.
#[cycle(sizes)]
fn items(code: &[u16], bounds: &mut [u16]) -> Sized
    ensures { ItemsSized code.now (length code.now) bounds.old bounds.new result }
{
    let Some(at) = code.len().checked_sub(node::SIZE) else {
        return bare(0);
    };
    if code[at + node::SHAPE] == shapes::LAST {
        return Sized {
            bound: 0,
            ..term(&code[..at], bounds)
        };
    }
    let l = items(&code[..at], bounds);
    let t = term(&code[..l.start], bounds);
    both(t, l)
}

// The pairs of a brace, which is no number; the last two terms before the node of the last pair.
// Form 2: `items` with `pair` for `term`. Tried on a small cycle of this shape: a generic function over a trait that `term` and `pair` implement; the borrow checker does not
// cover a method of an implementation that leads back to its own cycle of calls. A switch or a closure would tell at each call which of them is meant.
#[cycle(sizes)]
fn pairs(code: &[u16], bounds: &mut [u16]) -> Sized
    ensures { PairsSized code.now (length code.now) bounds.old bounds.new result }
{
    let Some(at) = code.len().checked_sub(node::SIZE) else {
        return bare(0);
    };
    if code[at + node::SHAPE] == shapes::LAST {
        return pair(&code[..at], bounds);
    }
    let l = pairs(&code[..at], bounds);
    let t = pair(&code[..l.start], bounds);
    both(t, l)
}

// Two terms, one behind the other.
#[cycle(sizes)]
fn pair(code: &[u16], bounds: &mut [u16]) -> Sized
    ensures { PairSized code.now (length code.now) bounds.old bounds.new result }
{
    let u = term(code, bounds);
    let t = term(&code[..u.start], bounds);
    both(t, u)
}

// The predicate whose nodes are the last.
// Form 1: a predicate has no size, and its bound says nothing. `bare`, `both`, `pair` and `bound` answer for predicates as for terms that are no number; with a struct of fault and
// start alone for predicates each of the four would stand twice, or its answer be made into the other at its calls.
#[cycle(sizes)]
pub fn pred(code: &[u16], bounds: &mut [u16]) -> Sized
    ensures { PredSized code.now (length code.now) bounds.old bounds.new result }
{
    let Some(at) = code.len().checked_sub(node::SIZE) else {
        return bare(0);
    };
    let front = &code[..at];
    let n = last_node(code);
    match code[at + node::SHAPE] {
        shapes::TRUTH => bare(at),
        shapes::NEGATION => pred(front, bounds),
        shapes::CONNECTED => connected(front, bounds),
        shapes::COMPARED | shapes::MEMBER => pair(front, bounds),
        shapes::WITHIN => within(front, bounds),
        shapes::RELATED => related(front, bounds),
        shapes::QUANTIFIED => bound(front, n, bounds),
        _ => bare(0),
    }
}

// Two predicates with a connective between them.
// Form 2: `pair` with `pred` for `term`, and they stay two as `pairs` and `items` do.
#[cycle(sizes)]
fn connected(front: &[u16], bounds: &mut [u16]) -> Sized
    ensures { (n : Node) → PredSized (ended front.now 3 n) (length front.now + 4) bounds.old bounds.new result }
{
    let q = pred(front, bounds);
    let p = pred(&front[..q.start], bounds);
    both(p, q)
}

// t in a..b.
#[cycle(sizes)]
fn within(front: &[u16], bounds: &mut [u16]) -> Sized
    ensures { (n : Node) → PredSized (ended front.now 6 n) (length front.now + 4) bounds.old bounds.new result }
{
    let d = domain(front);
    Sized {
        bound: 0,
        ..term(&front[..d.start], bounds)
    }
}

// t |-> u in v.
#[cycle(sizes)]
fn related(front: &[u16], bounds: &mut [u16]) -> Sized
    ensures { (n : Node) → PredSized (ended front.now 7 n) (length front.now + 4) bounds.old bounds.new result }
{
    let v = term(front, bounds);
    let t = pair(&front[..v.start], bounds);
    both(t, v)
}
