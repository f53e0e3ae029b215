// The table that the evaluator runs: its nodes.
#![tactic(auto)]

pub mod nodes;
pub mod slots;
pub mod table_shapes;

use type_rules::entries::Kind;

// The type of a tree, and where its nodes begin.
#[derive(Drop)]
pub struct Made {
    pub kind: Kind,
    pub start: usize,
}
