// Hints for a refused text, by its symbols and by what reading answers for other texts: what could stand at the place, which names are in reach there, which count is passed.
#![tactic(auto)]

pub mod amounts;
pub mod headings;
pub mod reaches;
pub mod samples;
