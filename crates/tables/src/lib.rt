// The table that the evaluator runs, from the nodes of a dossier.
// Form 5: what the passes read is one struct, made in `set_table`; names, places and table are lent to be written, beside it. A struct of these three
// would spare each of the nine passes two parameters, and have each promise three equations more, that it hands back the arrays it was given. That the table
// has room for the nodes is asked of what is read and what is written together, and says nothing of either alone.
#![tactic(auto)]

pub mod passes;
