// The five edits done: the verdict, then the write; the answer of a vertex is counted after the write, that of an edge, with its rule, before it.
#![tactic(auto)]

pub mod apply;
pub mod edge;
pub mod vertex;
