// Terms and predicates: numbers 4 and 5 of document 01, and the nodes of their trees.
//
// Terms contain predicates and predicates terms, so the functions are one cycle, which stands in one file.
// Form 3: where the next operator or connective stands, says the right side that is read.
// Form 5: that there is room for what is written (`Room`) is of the symbols, the place and the lent array together: a struct of the three would carry the
// clause more that the array stays the same. What stands at the place, a {, a ( or `in`, is asked by those that go on where it was seen;
// a type of such places would hold the symbols too, a field and a lifetime more (as in form_nodes/ranges).
ghost use Rattle.std.specs.Prelude.{◌≡◌, [], ◌∷◌, ℕ, ◌+◌, ◌≤◌, ◌<◌, length, get_or};
ghost use Rattle.lexical.specs.Kinds as kind;
ghost use Rattle.form.specs.Machine.{exact, a_term, an_operand, a_term_rest, a_rel, a_mem, a_right, a_brace, a_list, a_pairs, a_unary, a_paren, a_pred_rest};
ghost use Rattle.form_nodes.specs.FormPromises.{Reads, TermReads, PredReads, Room, Ahead, Classes, operators, connectives, operator_number, level_of};
ghost use Rattle.form_nodes.specs.Derivations.{OperatorFrom, ConnectiveFrom, Made, an_operand, a_term_from, a_term_rest, some_items, some_pairs, a_pred_from, a_pred_rest, a_unary, an_atom, some_related, More};

use crate::Reach;
use form::shapes;
use form_nodes::kinds::{
    Operator, PredStart, Relation, Start, connective_of, is_membership, is_quantifier, kind_at,
    operator_of, pred_start_of, relation_of, start_of,
};
use form_nodes::nodes::{
    division, empty, leaf, magnitude, name_number, put, put_domain, put_range,
};
use form_nodes::ranges::{close, domain, end, is_range, range, range_end};
use form_nodes::{Read, Symbols, kinds, no_dossier};
use lexical::bounds::DEPTH;
use lexical::codes;
use refusals::Fault;

// The operator of a level above the given one that stands at a place; the level of the connective, likewise.
fn operator_at(s: &[u8], at: usize, above: u8) -> Option<Operator>
    ensures { OperatorFrom s.now at (above + 1) result }
{
    operator_of(kind_at(s, at)).filter(|o| above < o.level())
}

fn connective_at(s: &[u8], at: usize, above: u8) -> Option<u8>
    ensures { ConnectiveFrom s.now at (above + 1) result }
{
    connective_of(kind_at(s, at)).filter(|l| above < *l)
}

// A term that no operator stands in, but in brackets.
#[cycle(trees)]
fn operand(y: &Symbols<'_>, from: Read, reach: Reach, code: &mut [u16]) -> Result<Read, Fault>
    requires { Room y.now.kinds.now code.old from.at from.count }
    ensures { Reads y.now.kinds.now from.at from.count (an_operand reach.depth reach.names ∷ []) [] result × Made y.now.kinds.now y.now.values.now an_operand from.at from.count code.old code.new result }
{
    let k = kind_at(y.kinds, from.at);
    let start = start_of(k).ok_or(no_dossier(from.at))?;
    match start {
        Start::Leaf => {
            let m = leaf(y.kinds, y.values, from.at, code, from.count);
            Ok(Read {
                at: from.at + 1,
                count: m,
            })
        }
        Start::Prefix => {
            if DEPTH <= reach.depth && range_end(y, from.at) {
                let m = leaf(y.kinds, y.values, from.at + 1, code, from.count);
                let c = put(code, m, shapes::PREFIX, from.at, u16::from(k), 0);
                return Ok(Read {
                    at: from.at + 1 + 1,
                    count: c,
                });
            }
            let within = reach.deeper(from.at)?;
            let inner = operand(y, from.skip(), within, code)?;
            Ok(inner.with_node(code, shapes::PREFIX, from.at, u16::from(k), 0))
        }
        Start::Bracket => {
            let within = reach.deeper(from.at)?;
            let bracketed = term(y, from.skip(), within, code)?;
            close(y.kinds, bracketed, codes::CLOSE_BRACKET)
        }
        Start::Brace => {
            let within = reach.deeper(from.at)?;
            brace(y, from, within, code)
        }
        Start::Empty => empty(y, from, code),
    }
}

#[cycle(trees)]
fn term(y: &Symbols<'_>, from: Read, reach: Reach, code: &mut [u16]) -> Result<Read, Fault>
    requires { Room y.now.kinds.now code.old from.at from.count }
    ensures { Reads y.now.kinds.now from.at from.count (a_term reach.depth reach.names ∷ []) [] result × Made y.now.kinds.now y.now.values.now (a_term_from 1) from.at from.count code.old code.new result }
{
    term_from(y, from, reach, 0, code)
}

// A term with operators of the levels above the given one; of 0, with all.
#[cycle(trees)]
fn term_from(
    y: &Symbols<'_>,
    from: Read,
    reach: Reach,
    above: u8,
    code: &mut [u16],
) -> Result<Read, Fault>
    requires { Room y.now.kinds.now code.old from.at from.count }
    ensures { TermReads y.now.kinds.now from.at from.count reach.depth reach.names (above + 1) (a_term reach.depth reach.names ∷ []) result × Made y.now.kinds.now y.now.values.now (a_term_from (above + 1)) from.at from.count code.old code.new result }
{
    let first = operand(y, from, reach, code)?;
    term_rest(y, first, reach, above, code)
}

// Operators behind a term, and their right sides: a chain, as long as it may be, is one loop.
#[cycle(trees)]
fn term_rest(
    y: &Symbols<'_>,
    from: Read,
    reach: Reach,
    above: u8,
    code: &mut [u16],
) -> Result<Read, Fault>
    requires { Room y.now.kinds.now code.old from.at from.count }
    ensures { TermReads y.now.kinds.now from.at from.count reach.depth reach.names (above + 1) (a_term_rest reach.depth reach.names ∷ []) result × Made y.now.kinds.now y.now.values.now (a_term_rest (above + 1)) from.at from.count code.old code.new result }
{
    let mut read = from;
    while let Some(o) = operator_at(y.kinds, read.at, above) {
        read = term_more(y, read, reach, o, code)?;
    }
    Ok(read)
}

// The operator o that stands behind a term, and its right side.
#[cycle(trees)]
fn term_more(
    y: &Symbols<'_>,
    from: Read,
    reach: Reach,
    o: Operator,
    code: &mut [u16],
) -> Result<Read, Fault>
    requires { Room y.now.kinds.now code.old from.at from.count × (from.at < length y.now.kinds.now) × Classes operators (get_or y.now.kinds.now from.at 0) (operator_number o) }
    ensures { Reads y.now.kinds.now from.at from.count (a_term_rest reach.depth reach.names ∷ []) (a_term_rest reach.depth reach.names ∷ []) result × Ahead from.at result × ((min : ℕ) → min ≤ level_of (operator_number o) → More y.now.kinds.now y.now.values.now (a_term_rest min) from.at from.count code.old code.new result) }
{
    match o {
        Operator::Division => {
            let divisor = end(y, from.skip())?;
            let x = magnitude(y.kinds, y.values, from.at + 1);
            let kind = division(y.kinds, from.at);
            Ok(divisor.with_node(code, shapes::DIVIDED, from.at, x, kind))
        }
        Operator::Loose | Operator::Tight => {
            let k = kind_at(y.kinds, from.at);
            let right = term_from(y, from.skip(), reach, o.level(), code)?;
            Ok(right.with_node(code, shapes::BINARY, from.at, u16::from(k), 0))
        }
    }
}

// Behind the { at a place.
#[cycle(trees)]
fn brace(y: &Symbols<'_>, from: Read, reach: Reach, code: &mut [u16]) -> Result<Read, Fault>
    requires { Room y.now.kinds.now code.old from.at from.count × (get_or y.now.kinds.now from.at 0 ≡ 19) }
    ensures { Reads y.now.kinds.now (from.at + 1) (from.count + 4) (a_brace reach.depth reach.names ∷ []) [] result × Made y.now.kinds.now y.now.values.now an_operand from.at from.count code.old code.new result }
{
    if kind_at(y.kinds, from.at + 1) == codes::PLAIN
        && kind_at(y.kinds, from.at + 1 + 1) == codes::COLON
    {
        return such(y, from, reach, code);
    }
    listed(y, from, reach, code)
}

// {t, ..} or {t |-> t, ..}.
#[cycle(trees)]
fn listed(y: &Symbols<'_>, from: Read, reach: Reach, code: &mut [u16]) -> Result<Read, Fault>
    requires { Room y.now.kinds.now code.old from.at from.count × (get_or y.now.kinds.now from.at 0 ≡ 19) × (get_or y.now.kinds.now (from.at + 1) 0 ≡ 2 → get_or y.now.kinds.now (from.at + 1 + 1) 0 ≡ 10 → ⊥) }
    ensures { Reads y.now.kinds.now (from.at + 1) (from.count + 4) (a_brace reach.depth reach.names ∷ []) [] result × Made y.now.kinds.now y.now.values.now an_operand from.at from.count code.old code.new result }
{
    let first = term(y, from.skip(), reach, code)?;
    if kind_at(y.kinds, first.at) == codes::MAPLET {
        let sides = pairs(y, first, reach, code)?;
        return Ok(sides.with_node(code, shapes::PAIRS, from.at, 0, 0));
    }
    let rest = items(y, first, reach, code)?;
    Ok(rest.with_node(code, shapes::LISTED, from.at, 0, 0))
}

// {x : G | p}.
#[cycle(trees)]
fn such(y: &Symbols<'_>, from: Read, reach: Reach, code: &mut [u16]) -> Result<Read, Fault>
    requires { Room y.now.kinds.now code.old from.at from.count × (get_or y.now.kinds.now from.at 0 ≡ 19) × (get_or y.now.kinds.now (from.at + 1) 0 ≡ 2) × (get_or y.now.kinds.now (from.at + 1 + 1) 0 ≡ 10) }
    ensures { Reads y.now.kinds.now (from.at + 1) (from.count + 4) (a_brace reach.depth reach.names ∷ []) [] result × Made y.now.kinds.now y.now.values.now an_operand from.at from.count code.old code.new result }
{
    let within = reach.with_name(from.at + 1)?;
    let g = from.at + 1 + 1 + 1;
    let over = y.name_at(g)?;
    let bar = close(y.kinds, Read { at: g + 1, ..from }, codes::BAR)?;
    let body = pred(y, bar, within, code)?;
    let ranged = body.with_node(code, shapes::SET, g, over, 0);
    let x = name_number(y.kinds, y.values, from.at + 1);
    let named = ranged.with_node(code, shapes::SUCH, from.at, x, 0);
    close(y.kinds, named, codes::CLOSE_BRACE)
}

// Behind the first term of {t, ..}.
// Form 2: it ends as `pairs` does, } or a comma, a term and itself again. A function for both endings would be told by a flag which of the two it calls, and
// promise by it what the machine expects there (`a_list` or `a_pairs`) and what is made (`some_items` or `some_pairs`).
#[cycle(trees)]
fn items(y: &Symbols<'_>, from: Read, reach: Reach, code: &mut [u16]) -> Result<Read, Fault>
    requires { Room y.now.kinds.now code.old from.at from.count }
    ensures { Reads y.now.kinds.now from.at from.count (a_list reach.depth reach.names ∷ []) [] result × Made y.now.kinds.now y.now.values.now some_items from.at from.count code.old code.new result }
{
    match kind_at(y.kinds, from.at) {
        codes::CLOSE_BRACE => Ok(from.skip().with_node(code, shapes::LAST, 0, 0, 0)),
        codes::COMMA => {
            let item = term(y, from.skip(), reach, code)?;
            let rest = items(y, item, reach, code)?;
            Ok(rest.with_node(code, shapes::ALSO, 0, 0, 0))
        }
        _ => Err(no_dossier(from.at)),
    }
}

// Behind the first side of {t |-> t, ..}.
#[cycle(trees)]
fn pairs(y: &Symbols<'_>, from: Read, reach: Reach, code: &mut [u16]) -> Result<Read, Fault>
    requires { Room y.now.kinds.now code.old from.at from.count }
    ensures { Reads y.now.kinds.now from.at from.count (exact kind.maplet ∷ a_term reach.depth reach.names ∷ a_pairs reach.depth reach.names ∷ []) [] result × Made y.now.kinds.now y.now.values.now some_pairs from.at from.count code.old code.new result }
{
    let arrow = close(y.kinds, from, codes::MAPLET)?;
    let right = term(y, arrow, reach, code)?;
    match kind_at(y.kinds, right.at) {
        codes::CLOSE_BRACE => Ok(right.skip().with_node(code, shapes::LAST, 0, 0, 0)),
        codes::COMMA => {
            let left = term(y, right.skip(), reach, code)?;
            let rest = pairs(y, left, reach, code)?;
            Ok(rest.with_node(code, shapes::ALSO, 0, 0, 0))
        }
        _ => Err(no_dossier(right.at)),
    }
}

#[cycle(trees)]
pub fn pred(y: &Symbols<'_>, from: Read, reach: Reach, code: &mut [u16]) -> Result<Read, Fault>
    requires { Room y.now.kinds.now code.old from.at from.count }
    ensures { Reads y.now.kinds.now from.at from.count (a_unary reach.depth reach.names ∷ a_pred_rest reach.depth reach.depth reach.names ∷ []) [] result × Made y.now.kinds.now y.now.values.now (a_pred_from 1) from.at from.count code.old code.new result }
{
    pred_from(y, from, reach, 0, code)
}

// A predicate with connectives of the levels above the given one; of 0, with all.
#[cycle(trees)]
fn pred_from(
    y: &Symbols<'_>,
    from: Read,
    reach: Reach,
    above: u8,
    code: &mut [u16],
) -> Result<Read, Fault>
    requires { Room y.now.kinds.now code.old from.at from.count }
    ensures { PredReads y.now.kinds.now from.at from.count reach.depth reach.names (above + 1) (a_unary reach.depth reach.names ∷ []) result × Made y.now.kinds.now y.now.values.now (a_pred_from (above + 1)) from.at from.count code.old code.new result }
{
    let first = unary(y, from, reach, code)?;
    pred_rest(y, first, reach, above, code)
}

// Connectives behind a predicate, and their right sides: a chain, as long as it may be, is one loop.
// Form 2: the loop of `term_rest` over links of the other kind, each a function of the cycle. Tried on a small cycle of this shape: a generic function over a
// trait that both implement; the borrow checker does not cover a method of an implementation that leads back to its own cycle of calls. A flag would choose
// what is promised, too.
#[cycle(trees)]
fn pred_rest(
    y: &Symbols<'_>,
    from: Read,
    reach: Reach,
    above: u8,
    code: &mut [u16],
) -> Result<Read, Fault>
    requires { Room y.now.kinds.now code.old from.at from.count }
    ensures { PredReads y.now.kinds.now from.at from.count reach.depth reach.names (above + 1) [] result × Made y.now.kinds.now y.now.values.now (a_pred_rest (above + 1)) from.at from.count code.old code.new result }
{
    let mut read = from;
    while let Some(l) = connective_at(y.kinds, read.at, above) {
        read = pred_more(y, read, reach, l, code)?;
    }
    Ok(read)
}

// The connective of the level l that stands behind a predicate, and its right side.
// Form 4: `with_node` stands twice. With reach and level chosen by an `if` in front of one call (tried), the answers behind it are by cases, each with the two
// that stand here: `deeper` and the promise of `pred_from` are of one branch alone.
#[cycle(trees)]
fn pred_more(
    y: &Symbols<'_>,
    from: Read,
    reach: Reach,
    l: u8,
    code: &mut [u16],
) -> Result<Read, Fault>
    requires { Room y.now.kinds.now code.old from.at from.count × (1 ≤ l) × (from.at < length y.now.kinds.now) × Classes connectives (get_or y.now.kinds.now from.at 0) l }
    ensures { ((base : ℕ) → (l ≡ 1 → base ≡ reach.depth) → Reads y.now.kinds.now from.at from.count (a_pred_rest base reach.depth reach.names ∷ []) (a_pred_rest base reach.depth reach.names ∷ []) result) × Ahead from.at result × ((min : ℕ) → min ≤ l → More y.now.kinds.now y.now.values.now (a_pred_rest min) from.at from.count code.old code.new result) }
{
    let at = from.at;
    let k = kind_at(y.kinds, at);
    if l == kinds::IMPLIES_LEVEL {
        let within = reach.deeper(at)?;
        let conclusion = pred_from(y, from.skip(), within, kinds::IFF_LEVEL, code)?;
        return Ok(conclusion.with_node(code, shapes::CONNECTED, at, u16::from(k), 0));
    }
    let right = pred_from(y, from.skip(), reach, l, code)?;
    Ok(right.with_node(code, shapes::CONNECTED, at, u16::from(k), 0))
}

// A predicate that no connective stands in, but in parentheses.
#[cycle(trees)]
fn unary(y: &Symbols<'_>, from: Read, reach: Reach, code: &mut [u16]) -> Result<Read, Fault>
    requires { Room y.now.kinds.now code.old from.at from.count }
    ensures { Reads y.now.kinds.now from.at from.count (a_unary reach.depth reach.names ∷ []) [] result × Made y.now.kinds.now y.now.values.now a_unary from.at from.count code.old code.new result }
{
    let k = kind_at(y.kinds, from.at);
    let start = pred_start_of(k);
    match start {
        PredStart::Term => {
            let first = term(y, from, reach, code)?;
            atom(y, first, reach, code)
        }
        PredStart::Truth => {
            let behind = from.skip();
            Ok(behind.with_node(code, shapes::TRUTH, from.at, u16::from(k), 0))
        }
        PredStart::Negation => {
            let within = reach.deeper(from.at)?;
            let denied = unary(y, from.skip(), within, code)?;
            Ok(denied.with_node(code, shapes::NEGATION, from.at, 0, 0))
        }
        PredStart::Paren => {
            let within = reach.deeper(from.at)?;
            paren(y, from, within, code)
        }
    }
}

// Behind the ( at a place.
#[cycle(trees)]
fn paren(y: &Symbols<'_>, from: Read, reach: Reach, code: &mut [u16]) -> Result<Read, Fault>
    requires { Room y.now.kinds.now code.old from.at from.count × (get_or y.now.kinds.now from.at 0 ≡ 15) }
    ensures { Reads y.now.kinds.now (from.at + 1) (from.count + 4) (a_paren reach.depth reach.names ∷ []) [] result × Made y.now.kinds.now y.now.values.now a_unary from.at from.count code.old code.new result }
{
    if is_quantifier(kind_at(y.kinds, from.at + 1)) {
        return quantified(y, from, reach, code);
    }
    let inner = pred(y, from.skip(), reach, code)?;
    close(y.kinds, inner, codes::CLOSE_PAREN)
}

// Behind ( and a quantifier.
#[cycle(trees)]
fn quantified(y: &Symbols<'_>, from: Read, reach: Reach, code: &mut [u16]) -> Result<Read, Fault>
    requires { Room y.now.kinds.now code.old from.at from.count × (53 ≤ get_or y.now.kinds.now (from.at + 1) 0) × (get_or y.now.kinds.now (from.at + 1) 0 ≤ 55) × (get_or y.now.kinds.now from.at 0 ≡ 15) }
    ensures { Reads y.now.kinds.now (from.at + 1) (from.count + 4) (a_paren reach.depth reach.names ∷ []) [] result × Made y.now.kinds.now y.now.values.now a_unary from.at from.count code.old code.new result }
{
    let x = from.at + 1 + 1;
    let name = close(y.kinds, Read { at: x, ..from }, codes::PLAIN)?;
    let within = reach.with_name(x)?;
    let colon = close(y.kinds, name, codes::COLON)?;
    let over = domain(y, colon)?;
    let spot = close(y.kinds, over, codes::SPOT)?;
    let body = pred(y, spot, within, code)?;
    let h = put_domain(y.kinds, y.values, colon.at, code, body.count);
    let i = name_number(y.kinds, y.values, x);
    let j = kind_at(y.kinds, from.at + 1);
    let c = put(code, h, shapes::QUANTIFIED, from.at + 1, i, u16::from(j));
    close(y.kinds, Read { count: c, ..body }, codes::CLOSE_PAREN)
}

// What stands behind the first term of a predicate.
#[cycle(trees)]
fn atom(y: &Symbols<'_>, from: Read, reach: Reach, code: &mut [u16]) -> Result<Read, Fault>
    requires { Room y.now.kinds.now code.old from.at from.count }
    ensures { Reads y.now.kinds.now from.at from.count (a_rel reach.depth reach.names ∷ []) [] result × Made y.now.kinds.now y.now.values.now an_atom from.at from.count code.old code.new result }
{
    let k = kind_at(y.kinds, from.at);
    let relation = relation_of(k).ok_or(no_dossier(from.at))?;
    match relation {
        Relation::Membership => member(y, from, reach, code),
        Relation::Comparison => {
            let right = term(y, from.skip(), reach, code)?;
            Ok(right.with_node(code, shapes::COMPARED, from.at, u16::from(k), 0))
        }
        Relation::Pairing => {
            let second = term(y, from.skip(), reach, code)?;
            related(y, second, reach, code)
        }
    }
}

// Behind `in` or `notin`.
#[cycle(trees)]
fn member(y: &Symbols<'_>, from: Read, reach: Reach, code: &mut [u16]) -> Result<Read, Fault>
    requires { Room y.now.kinds.now code.old from.at from.count × (56 ≤ get_or y.now.kinds.now from.at 0) × (get_or y.now.kinds.now from.at 0 ≤ 57) }
    ensures { Reads y.now.kinds.now (from.at + 1) (from.count + 4) (a_right reach.depth reach.names ∷ []) [] result × Made y.now.kinds.now y.now.values.now an_atom from.at from.count code.old code.new result }
{
    let k = kind_at(y.kinds, from.at);
    if is_range(y, from.at + 1) {
        let ends = range(y, from.skip())?;
        let m = put_range(y.kinds, y.values, from.at + 1, code, from.count);
        let count = put(code, m, shapes::WITHIN, from.at, u16::from(k), 0);
        return Ok(Read { count, ..ends });
    }
    let set = term(y, from.skip(), reach, code)?;
    Ok(set.with_node(code, shapes::MEMBER, from.at, u16::from(k), 0))
}

// Behind t |-> t.
#[cycle(trees)]
fn related(y: &Symbols<'_>, from: Read, reach: Reach, code: &mut [u16]) -> Result<Read, Fault>
    requires { Room y.now.kinds.now code.old from.at from.count }
    ensures { Reads y.now.kinds.now from.at from.count (a_mem reach.depth reach.names ∷ []) [] result × Made y.now.kinds.now y.now.values.now some_related from.at from.count code.old code.new result }
{
    let k = kind_at(y.kinds, from.at);
    if !is_membership(k) {
        return Err(no_dossier(from.at));
    }
    let set = term(y, from.skip(), reach, code)?;
    Ok(set.with_node(code, shapes::RELATED, from.at, u16::from(k), 0))
}
