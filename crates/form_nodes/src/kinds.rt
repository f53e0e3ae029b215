// The kinds of symbols, by their codes.
ghost use Rattle.std.specs.Prelude.{◌≡◌, get_or};
ghost use Rattle.form_nodes.specs.FormPromises.{KindAt, Classes, StartOf, Begins, Members, Quantifies, Relates, operators, connectives, operator_number, operator_class, connective_class, level_of};

use lexical::classes::at_or;
use lexical::codes;

// How a symbol begins a term.
// Form 1: five cases of the machine (form/specs/Machine.antt); that no term begins is the `None` of `start_of`.
#[derive(Clone, Copy)]
pub enum Start {
    Leaf,
    Prefix,
    Bracket,
    Brace,
    Empty,
}

// How a symbol begins a predicate: any that is not a truth value, `not` or ( begins a term.
// Form 1: four ways, each with a reading of its own.
#[derive(Clone, Copy)]
pub enum PredStart {
    Truth,
    Negation,
    Paren,
    Term,
}

// What stands behind a predicate's first term: a comparison, a membership, |->.
// Form 1: three relations; that none stands there is the `None` of `relation_of`.
#[derive(Clone, Copy)]
pub enum Relation {
    Comparison,
    Membership,
    Pairing,
}

// An operator: of the lower level, of the higher, or of the higher with a number on its right.
// Form 1: three cases; that none stands there is the `None` of `operator_of`.
#[derive(Clone, Copy)]
pub enum Operator {
    Loose,
    Tight,
    Division,
}

// The kind's code at a place.
// Form 2: `at_or` of lexical for codes, with one promise more, which callers count on (`inside` of `KindAt`): a code that is not 0 stands inside. `at_or`, of
// any type, cannot say so.
pub fn kind_at(s: &[u8], at: usize) -> u8
    ensures { KindAt s.now at result }
{
    at_or(s, at, 0)
}

pub fn start_of(k: u8) -> Option<Start>
    ensures { StartOf k result }
{
    match k {
        codes::NUMBER..=codes::OUTPUT => Some(Start::Leaf),
        codes::DASH | codes::SIZE | codes::DOM..=codes::RAN => Some(Start::Prefix),
        codes::OPEN_BRACKET => Some(Start::Bracket),
        codes::OPEN_BRACE => Some(Start::Brace),
        codes::EMPTY => Some(Start::Empty),
        _ => None,
    }
}

// The levels of operators and of connectives.
// Form 1: numbers, since a right side has operators and connectives of the levels above one (`above` in expressions). Of a connective the level is all that is
// asked: `connective_at` compares it, `pred_more` hands it on, and tells => from the others by it. An enum would be turned into it for the first two, by a method
// of four arms, and spare one clause, `1 ≤ l` of `pred_more`.
pub const LOOSE: u8 = 1;

pub const TIGHT: u8 = 2;

pub const IFF_LEVEL: u8 = 1;

pub const IMPLIES_LEVEL: u8 = 2;

pub const OR_LEVEL: u8 = 3;

pub const AND_LEVEL: u8 = 4;

// The operator that a kind is.
pub fn operator_of(k: u8) -> Option<Operator>
    ensures { Classes operators k (operator_class result) }
{
    match k {
        codes::PLUS..=codes::DASH | codes::UNION..=codes::MINUS => Some(Operator::Loose),
        codes::TIMES | codes::INTER => Some(Operator::Tight),
        codes::DIV..=codes::MOD => Some(Operator::Division),
        _ => None,
    }
}

impl Operator {
    pub fn level(self) -> u8
        ensures { result ≡ level_of (operator_number self) }
    {
        match self {
            Operator::Loose => LOOSE,
            Operator::Tight => TIGHT,
            Operator::Division => TIGHT,
        }
    }
}

// The level of the connective that a kind is.
pub fn connective_of(k: u8) -> Option<u8>
    ensures { Classes connectives k (connective_class result) }
{
    match k {
        codes::IFF => Some(IFF_LEVEL),
        codes::IMPLIES => Some(IMPLIES_LEVEL),
        codes::OR => Some(OR_LEVEL),
        codes::AND => Some(AND_LEVEL),
        _ => None,
    }
}

pub fn pred_start_of(k: u8) -> PredStart
    ensures { Begins k result }
{
    match k {
        codes::TRUE..=codes::FALSE => PredStart::Truth,
        codes::NOT => PredStart::Negation,
        codes::OPEN_PAREN => PredStart::Paren,
        _ => PredStart::Term,
    }
}

pub fn relation_of(k: u8) -> Option<Relation>
    ensures { Relates k result }
{
    match k {
        codes::EQUALS..=codes::AT_MOST => Some(Relation::Comparison),
        codes::IN..=codes::NOTIN => Some(Relation::Membership),
        codes::MAPLET => Some(Relation::Pairing),
        _ => None,
    }
}

// Is it `in` or `notin`?
pub fn is_membership(k: u8) -> bool
    ensures { Members k result }
{
    matches!(k, codes::IN..=codes::NOTIN)
}

pub fn is_quantifier(k: u8) -> bool
    ensures { Quantifies k result }
{
    matches!(k, codes::FORALL..=codes::EXISTS1)
}
