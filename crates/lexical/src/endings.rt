// How many endings a name can have: the number of a name is its letters' number times this, and its ending, `Ending as u16`.
pub const COUNT: u16 = 4;
