//! Everything that the canonical model looks up.
use crate::tables::{LoopTables, NameTables};
use rules::consequences::Consequences;

// No `impl Model`: clauses see these tables by `tabled`, a record of functions, and the value of a model has to be data.

/// What follows from the rules, the rows of each name, and which roles are generating or form loops.
#[derive(Clone, Copy)]
pub struct CanonicalTables<'a> {
    pub(crate) consequences: &'a Consequences,
    pub(crate) names: u16,
    pub(crate) rows: NameTables,
    pub(crate) loops: LoopTables,
    pub(crate) generating: [bool; 128],
}
