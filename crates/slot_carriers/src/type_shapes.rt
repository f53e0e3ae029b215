// The shapes of types (form/src/shapes), as numbers of the cells.
// Form 1: they stand in the cells, whose numbers have 32 bits where a node's have 16.
use form::shapes;

pub const SET: u32 = shapes::SET as u32;

pub const RANGE: u32 = shapes::RANGE as u32;

pub const POWER: u32 = shapes::POWER as u32;

pub const RELATION: u32 = shapes::RELATION as u32;

pub const PARTIAL: u32 = shapes::PARTIAL as u32;

pub const TOTAL: u32 = shapes::TOTAL as u32;
