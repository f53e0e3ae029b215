// What a dollar sign among the words stands for.
use crate::groups::{LEFT, RIGHT, side_of};
use lines::Side;

// The two numbers, the operation, a part of the text, symbols, a line underlined, an ending, the values of a group, names of its variables, the group in a column, both states side by side,
// a condition that the group has variables, nothing.
// Form 1: cases of its own; `Nothing` is written `$.` among the words and takes the newline behind it away, so that it is a case as the others are.
#[derive(Clone, Copy)]
pub enum Insert {
    First,
    Second,
    Operation,
    Part,
    Symbols,
    Underlined,
    Ending,
    Values(Side),
    Names(Side),
    Column(Side, usize),
    Both,
    Where(Side),
    Nothing,
}

// By the letters behind the dollar sign; none where they name nothing, or no group.
pub fn insert_of(letters: &[u8]) -> Option<Insert> {
    let side = letters.get(1).and_then(|b| side_of(*b));
    match *letters.first()? {
        b'n' => Some(Insert::First),
        b'm' => Some(Insert::Second),
        b'o' => Some(Insert::Operation),
        b'x' => Some(Insert::Part),
        b's' => Some(Insert::Symbols),
        b'u' => Some(Insert::Underlined),
        b'e' => Some(Insert::Ending),
        b'f' => Some(Insert::Values(side?)),
        b'v' => Some(Insert::Names(side?)),
        b'l' => Some(Insert::Column(side?, LEFT)),
        b'r' => Some(Insert::Column(side?, RIGHT)),
        b'b' => Some(Insert::Both),
        b'?' => Some(Insert::Where(side?)),
        b'.' => Some(Insert::Nothing),
        _ => None,
    }
}
