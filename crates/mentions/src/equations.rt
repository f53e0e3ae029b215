// Equations that give a variable its value.
ghost use Rattle.mentions.specs.MentionPromises.{TellsSlot, Solving};

use crate::{Mention, inside};
use evaluator::{END_BACK, FIRST_BACK, SHAPE_BACK};
use form::node;
use form::operator_codes::EQUALS;
use table_nodes::table_shapes;

impl Mention<'_> {
    // Is one term the variable of the slot, and the other one free of it?
    fn tells(&self, own: usize, other: usize) -> bool
        ensures { TellsSlot self.now.table.now own other self.now.slot result }
    {
        inside(own)
            && self.table[own - SHAPE_BACK] == table_shapes::SLOT
            && usize::from(self.table[own - FIRST_BACK]) == self.slot
            && self.free_term(other)
    }

    // Where the term ends that the predicate up to `end` says the variable of the slot to be: an equation with the variable on one side, and without it on the
    // other; none if it says none.
    pub fn solving(&self, end: usize) -> Option<usize>
        ensures { Solving self.now.table.now end self.now.slot result }
    {
        if !inside(end)
            || self.table[end - SHAPE_BACK] != table_shapes::COMPARED
            || self.table[end - FIRST_BACK] != EQUALS
        {
            return None;
        }
        let left = self.earlier(end, END_BACK)?;
        let right = end - node::SIZE;
        if self.tells(left, right) {
            return Some(right);
        }
        if self.tells(right, left) {
            return Some(left);
        }
        None
    }
}
