// Document 01, "Symbols": classes of bytes, and the one symbol at a place.
#![tactic(auto)]

pub mod bounds;
pub mod classes;
pub mod codes;
pub mod endings;
pub mod marks;
pub mod numbers;
pub mod words;

// The class of a byte.
// Form 1: five classes, none of which says that there is no byte.
#[derive(Clone, Copy)]
pub enum Class {
    Letter,
    Digit,
    Mark,
    Blank,
    Other,
}

// What stands at a place: a blank; nothing that is listed; or a symbol, by its code, its length and the value of a number.
// Form 1: a blank is passed and a byte that is not listed refuses the text, so that `None` would have to say two things.
#[derive(Clone, Copy)]
pub enum Token {
    Gap,
    Unlisted,
    Listed(u8, usize, u16),
}

// What ends a name: nothing, ', ? or !. As numbers they are what a name's number leaves when divided by `endings::COUNT`.
// Form 1: the four endings of document 01; a plain name is one of four kinds of names there.
#[derive(Clone, Copy, PartialEq, Eq)]
pub enum Ending {
    Plain,
    Prime,
    Query,
    Shriek,
}

// Where a walk down the tree ends: at a node, at a free slot, or at the deepest level.
// Form 1: three ends, of which the caller fills a free slot and searches all symbols behind the deepest level.
#[derive(Clone, Copy)]
pub enum Stop {
    At(usize),
    Free(usize),
    Deep,
}
