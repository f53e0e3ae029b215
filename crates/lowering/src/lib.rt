// Terms and predicates to nodes of the table.
// Form 5: names, places and table are lent to be written. A struct of the three would spare each of the 19 functions of the walk two parameters, and have each
// promise three equations more, that it hands back the arrays it was given; one of names and places alone would spare one parameter for two equations. The code
// is not cut in front of a node, as `&code[..at]` in the place of `end`: of what `WalkAsked` asks that would spare `inside` alone, since the table is written at
// the same places and `fits` and `small` say that it has them; and `Reading`, which has code and sizes in one, would be made anew at 26 calls.
#![tactic(auto)]

mod braces;
mod leaves;
pub mod walk;

// What the walk reads: the nodes of a dossier, and how many elements its given sets have.
#[derive(Clone, Copy)]
pub struct Reading<'a> {
    pub code: &'a [u16],
    pub sizes: &'a [u16],
}
