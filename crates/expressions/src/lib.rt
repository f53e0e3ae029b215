// Terms and predicates.
#![tactic(auto)]

ghost use Rattle.std.specs.Prelude.{◌≤◌};

mod reaches;
pub mod trees;

// How deep a part stands in its tree, and how many names are bound around it.
#[derive(Clone, Copy)]
pub struct Reach {
    pub depth: u8,
    pub names: u8,
    ghost shallow: { depth ≤ 24 },
    ghost few: { names ≤ 3 },
}
