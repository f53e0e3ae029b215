// Which slots the nodes of the evaluator's table mention: whether a term or a predicate is free of a slot, so that its value does not depend on it; which term an equation says a variable to be.
// Nodes as in `evaluator`. Nothing is asked of the table: where a part does not end before its node, the answer is no. A binder is free of its own slot, which it writes.
#![tactic(auto)]

pub mod equations;

ghost use Rattle.std.specs.Prelude.{◌≡◌, true, ◌-◌, ◌<◌, ◌≤◌, IfSome, get_or};
ghost use Rattle.evaluator.specs.EvaluationEvaluationByNumber.{Inside};
ghost use Rattle.mentions.specs.MentionPromises.{Earlier, PartSays, TermSays, ItemsSay, TruthSays, AskedSays};

use evaluator::{END_BACK, FIRST_BACK, SECOND_BACK, SHAPE_BACK, TWO_NODES};
use form::node;
use table_nodes::table_shapes;

// Can a node end here?
fn inside(end: usize) -> bool
    ensures { result ≡ true → Inside end }
{
    (node::SIZE..=node::NUMBERS).contains(&end)
}

// A slot, and the table whose nodes may mention it.
#[derive(Clone, Copy)]
pub struct Mention<'a> {
    pub table: &'a [u16; node::NUMBERS],
    pub slot: usize,
}

impl Mention<'_> {
    // Where an earlier part of a node ends, as the number so far before the node's end says; none if that is not before it.
    fn earlier(&self, end: usize, back: usize) -> Option<usize>
        requires { Inside end × (0 < back) × (back ≤ 4) }
        ensures { IfSome result (λ p. Earlier end (get_or self.now.table.now (end - back) 0) p) }
    {
        let p = usize::from(self.table[end - back]);
        (p < end).then_some(p)
    }

    // Is an earlier part of a node, which is a term?
    // Form 4: the closure of `is_some_and` would be a sixth function of the cycle, with a measure and answers of its own, in place of the two arms.
    #[cycle(free)]
    fn free_part(&self, end: usize, back: usize) -> bool
        requires { Inside end × (0 < back) × (back ≤ 4) }
        ensures { PartSays self.now.table.now end (get_or self.now.table.now (end - back) 0) self.now.slot result }
    {
        match self.earlier(end, back) {
            Some(p) => self.free_term(p),
            None => false,
        }
    }

    // Is the term whose nodes end at `end` free of the slot?
    #[cycle(free)]
    pub fn free_term(&self, end: usize) -> bool
        ensures { TermSays self.now.table.now end self.now.slot result }
    {
        if !inside(end) {
            return false;
        }
        let shape = self.table[end - SHAPE_BACK];
        match shape {
            table_shapes::VALUE => true,
            table_shapes::SLOT => usize::from(self.table[end - FIRST_BACK]) != self.slot,
            table_shapes::PREFIX | table_shapes::DIVIDED => self.free_term(end - node::SIZE),
            table_shapes::BINARY => {
                self.free_part(end, END_BACK) && self.free_term(end - node::SIZE)
            }
            table_shapes::SUCH => {
                usize::from(self.table[end - FIRST_BACK]) == self.slot
                    || TWO_NODES <= end && self.free_pred(end - TWO_NODES)
            }
            _ => self.free_items(end - node::SIZE),
        }
    }

    // Are the items or pairs of a brace?
    #[cycle(free)]
    fn free_items(&self, end: usize) -> bool
        ensures { ItemsSay self.now.table.now end self.now.slot result }
    {
        if !inside(end) {
            return false;
        }
        let shape = self.table[end - SHAPE_BACK];
        if shape == table_shapes::LAST_ITEM {
            return self.free_term(end - node::SIZE);
        }
        if !self.free_part(end, END_BACK) {
            return false;
        }
        match shape {
            table_shapes::ALSO_ITEM => self.free_items(end - node::SIZE),
            table_shapes::LAST_PAIR => self.free_term(end - node::SIZE),
            _ => self.free_part(end, SECOND_BACK) && self.free_items(end - node::SIZE),
        }
    }

    // Is the predicate whose nodes end at `end`?
    #[cycle(free)]
    pub fn free_pred(&self, end: usize) -> bool
        ensures { TruthSays self.now.table.now end self.now.slot result }
    {
        if !inside(end) {
            return false;
        }
        let shape = self.table[end - SHAPE_BACK];
        match shape {
            table_shapes::TRUTH => true,
            table_shapes::NEGATION => self.free_pred(end - node::SIZE),
            table_shapes::CONNECTED => {
                let Some(left) = self.earlier(end, END_BACK) else {
                    return false;
                };
                self.free_pred(left) && self.free_pred(end - node::SIZE)
            }
            table_shapes::COMPARED => {
                self.free_part(end, END_BACK) && self.free_term(end - node::SIZE)
            }
            table_shapes::QUANTIFIED => {
                usize::from(self.table[end - FIRST_BACK]) == self.slot
                    || TWO_NODES <= end && self.free_pred(end - TWO_NODES)
            }
            _ => self.free_asked(end),
        }
    }

    // Are the parts of in and notin?
    #[cycle(free)]
    fn free_asked(&self, end: usize) -> bool
        requires { Inside end }
        ensures { AskedSays self.now.table.now end self.now.slot result }
    {
        let shape = self.table[end - SHAPE_BACK];
        match shape {
            table_shapes::MEMBER => {
                self.free_part(end, END_BACK) && self.free_term(end - node::SIZE)
            }
            table_shapes::WITHIN => { TWO_NODES <= end && self.free_term(end - TWO_NODES) }
            _ => {
                self.free_part(end, END_BACK)
                    && self.free_part(end, SECOND_BACK)
                    && self.free_term(end - node::SIZE)
            }
        }
    }
}
