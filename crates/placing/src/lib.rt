// What the walk that writes places does at one arc: what of the motif the arc takes, and a middle arc of the path of longest arcs. The statements and the
// laws of the whole walk stand here too; crate trace has the walk.
#![tactic(auto)]

pub mod path;
pub mod take;
