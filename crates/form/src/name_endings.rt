// The ending of a name, which the name's number leaves when divided by `lexical::endings::COUNT` (`name_number` of specs/Codes.antt). The number of a plain
// name, as a variable is declared, and one of these is the number of the name with that ending.
// Form 1: they are added to names' numbers and compared with what these leave.
use lexical::Ending;

pub const PLAIN: u16 = Ending::Plain as u16;

pub const PRIMED: u16 = Ending::Prime as u16;

pub const INPUT: u16 = Ending::Query as u16;

pub const OUTPUT: u16 = Ending::Shriek as u16;
