use crate::declaration::Decl;
use crate::statement::Stmt;
use sqlite_items::Items;

/// A program.
#[derive(Drop)]
pub struct Program {
    pub line: u32,
    pub decls: Items<Decl>,
    /// The statements of the main procedure.
    pub body: Items<Stmt>,
}
