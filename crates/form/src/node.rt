// A node of a tree: four numbers, b, a, the place and the shape, and where the last three stand (`node` of specs/Codes.antt).
// Form 1: lengths, and places in a node, no kinds.
use lexical::bounds;

pub const SIZE: usize = 4;

pub const A: usize = 1;

pub const PLACE: usize = 2;

pub const SHAPE: usize = 3;

// How many numbers the nodes of a dossier have at most: a node for each symbol.
pub const NUMBERS: usize = 16384;

// How many numbers the rows of the groups of variables have: how many variables a group has, and the places of their nodes (search_groups/src/groups).
pub const GROUPS: usize = 160;

// How much more than an end of a range its number in a node is, which is then not negative (`end_number` of specs/Codes.antt).
pub const RAISED: i64 = bounds::LARGEST_NUMBER as i64;

// A declaration has two nodes: of the name, and of its type.
pub const DECLARATION: usize = 8;
