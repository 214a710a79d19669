// Whole programs.

use crate::{Body, Decl, Names, Word};

/// A program: whether the two context clauses stand at its head, the procedure's name, its declarations and its body.
pub struct Program {
    pub names: Names,
    pub text_io: bool,
    pub name: Word,
    pub decls: Vec<Decl>,
    pub body: Body,
}

// Written out, so that a caller's proof sees one call and not the drop of each field.
impl Drop for Program {
    fn drop(self) {
        let Program {
            names: _names,
            text_io: _text_io,
            name: _name,
            decls: _decls,
            body: _body,
        } = self;
    }
}
