//! Sections and the module.

use crate::declarations::Decl;
use crate::diagrams::Diagram;
use crate::statements::Stmt;
use crate::tables::{Table, Vectors};
use crate::words::{DontCare, Word};
use pld_base::{ListOf, Place};

/// A section of a module.
#[derive(Drop)]
pub enum Section {
    Declarations(ListOf<Decl>),
    Equations(ListOf<Stmt>),
    Table(Table),
    Diagram(Diagram),
    Vectors(Vectors),
    DontCare(DontCare),
}

/// A source. The place is that of MODULE; `options` are the strings of all options before the first declaration.
#[derive(Drop)]
pub struct Module {
    pub place: Place,
    pub name: Word,
    pub title: Option<Word>,
    pub options: ListOf<Word>,
    pub decls: ListOf<Decl>,
    pub sections: ListOf<Section>,
}
