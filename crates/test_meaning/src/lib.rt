//! What small scripts mean, proved by computing the definitions: `proofs/` has an equation for each
//! production of the grammar, each method and each built-in function. No code runs here. The
//! equations show a reader that the definition of a script's meaning has the values that the standard
//! gives. tools/meanings writes them from cases that are also run, and compared with node.
#![tactic(auto)]
