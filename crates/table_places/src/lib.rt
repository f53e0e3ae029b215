// Slots of names, and the carriers of declared types.
// Form 5: that the table has room for the nodes is asked of what is read and what is written together: a struct with both would take that clause from each
// function and give it another one, that it hands back the table that it was given. That some nodes are 16,384 at the most is asked of the three slices of
// `place_all`: a struct of a slice with that bound would be a type more, and the bound would be shown where the struct is made, at the two calls that lend the
// four slices now.
#![tactic(auto)]

pub mod declared_types;
pub mod places;
