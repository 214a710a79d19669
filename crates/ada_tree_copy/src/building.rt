// Declarations and programs of their parts. Each part comes as a result; where one is missing, so is the whole. What is made has all parts as they came.

ghost use Rattle.std.specs.Prelude.{◌≡◌, IfOk, map, option_map};
ghost use Rattle.ada_tree.specs.PlainExpr.{plain_expr, plain_subind, plain_drange};
ghost use Rattle.ada_tree.specs.PlainStmt.{plain_formal, plain_body};
ghost use Rattle.ada_tree.specs.PlainDecl.{plain_shape, plain_init, plain_priority, plain_entry, plain_task, plain_decl, decls_of, OPlain, OArray, IOne, IList, IOthers, DNumber, DObject, DEnumeration, DArray, DSubtype, DException, DPragma, DTask, DTaskBody};
ghost use Rattle.ada_tree.specs.PlainProgram.{plain_program};
ghost use Rattle.ada_stmt_copy.specs.expressions.Parts.{OkWith};

use ada_stmt_copy::expressions::{all, both};
use ada_tree::{
    Body, Decl, DeclKind, Drange, EntryDecl, Expr, Formal, Init, Memory, Names, Priority, Program,
    Shape, Span, Subind, TaskUnit, Word,
};

/// A number declaration.
pub fn number_of(name: Word, value: Result<Expr, Memory>, span: Span) -> Result<Decl, Memory>
    ensures { IfOk result (λ made. OkWith value (λ v. plain_decl made ≡ DNumber name (plain_expr v) span)) }
{
    match value {
        Ok(value) => Ok(Decl {
            kind: DeclKind::Number { name, value },
            span,
        }),
        Err(e) => Err(e),
    }
}

/// An object declaration.
pub fn object_of(
    names: Result<Vec<Word>, Memory>,
    constant: bool,
    shape: Result<Shape, Memory>,
    init: Result<Option<Init>, Memory>,
    span: Span,
) -> Result<Decl, Memory>
    ensures { IfOk result (λ made. OkWith names (λ n. OkWith shape (λ x. OkWith init (λ i. plain_decl made ≡ DObject n.items constant (plain_shape x) (option_map plain_init i) span)))) }
{
    match all(names, shape, init) {
        Ok((names, shape, init)) => Ok(Decl {
            kind: DeclKind::Object {
                names,
                constant,
                shape,
                init,
            },
            span,
        }),
        Err(e) => Err(e),
    }
}

/// An enumeration type declaration.
pub fn enumeration_of(
    name: Word,
    literals: Result<Vec<Word>, Memory>,
    span: Span,
) -> Result<Decl, Memory>
    ensures { IfOk result (λ made. OkWith literals (λ l. plain_decl made ≡ DEnumeration name l.items span)) }
{
    match literals {
        Ok(literals) => Ok(Decl {
            kind: DeclKind::Enumeration { name, literals },
            span,
        }),
        Err(e) => Err(e),
    }
}

/// An array type declaration.
pub fn array_of(
    name: Word,
    index: Result<Drange, Memory>,
    part: Result<Subind, Memory>,
    span: Span,
) -> Result<Decl, Memory>
    ensures { IfOk result (λ made. OkWith index (λ r. OkWith part (λ x. plain_decl made ≡ DArray name (plain_drange r) (plain_subind x) span))) }
{
    match both(index, part) {
        Ok((index, part)) => Ok(Decl {
            kind: DeclKind::Array { name, index, part },
            span,
        }),
        Err(e) => Err(e),
    }
}

/// A subtype declaration.
pub fn subtype_of(name: Word, base: Result<Subind, Memory>, span: Span) -> Result<Decl, Memory>
    ensures { IfOk result (λ made. OkWith base (λ x. plain_decl made ≡ DSubtype name (plain_subind x) span)) }
{
    match base {
        Ok(base) => Ok(Decl {
            kind: DeclKind::Subtype { name, base },
            span,
        }),
        Err(e) => Err(e),
    }
}

/// An exception declaration.
pub fn exception_of(names: Result<Vec<Word>, Memory>, span: Span) -> Result<Decl, Memory>
    ensures { IfOk result (λ made. OkWith names (λ n. plain_decl made ≡ DException n.items span)) }
{
    match names {
        Ok(names) => Ok(Decl {
            kind: DeclKind::Exception { names },
            span,
        }),
        Err(e) => Err(e),
    }
}

/// A pragma PRIORITY among declarations.
pub fn pragma_of(value: Result<Expr, Memory>, span: Span) -> Result<Decl, Memory>
    ensures { IfOk result (λ made. OkWith value (λ v. plain_decl made ≡ DPragma (plain_expr v) span)) }
{
    match value {
        Ok(value) => Ok(Decl {
            kind: DeclKind::Pragma { value },
            span,
        }),
        Err(e) => Err(e),
    }
}

/// A task or task type, as a declaration.
pub fn task_of(task: Result<TaskUnit, Memory>, span: Span) -> Result<Decl, Memory>
    ensures { IfOk result (λ made. OkWith task (λ t. plain_decl made ≡ DTask (plain_task t) span)) }
{
    match task {
        Ok(task) => Ok(Decl {
            kind: DeclKind::Task(task),
            span,
        }),
        Err(e) => Err(e),
    }
}

/// A task body.
pub fn task_body_of(
    name: Word,
    objects: Result<Vec<Decl>, Memory>,
    body: Result<Body, Memory>,
    span: Span,
) -> Result<Decl, Memory>
    ensures { IfOk result (λ made. OkWith objects (λ o. OkWith body (λ b. plain_decl made ≡ DTaskBody name (decls_of (map plain_decl o.items)) (plain_body b) span))) }
{
    match both(objects, body) {
        Ok((objects, body)) => Ok(Decl {
            kind: DeclKind::TaskBody {
                name,
                objects,
                body,
            },
            span,
        }),
        Err(e) => Err(e),
    }
}

/// A scalar or a named array.
pub fn plain_of(mark: Result<Subind, Memory>) -> Result<Shape, Memory>
    ensures { IfOk result (λ made. OkWith mark (λ m. plain_shape made ≡ OPlain (plain_subind m))) }
{
    match mark {
        Ok(mark) => Ok(Shape::Plain(mark)),
        Err(e) => Err(e),
    }
}

/// An array of its own type.
pub fn array_shape_of(
    index: Result<Drange, Memory>,
    part: Result<Subind, Memory>,
) -> Result<Shape, Memory>
    ensures { IfOk result (λ made. OkWith index (λ r. OkWith part (λ x. plain_shape made ≡ OArray (plain_drange r) (plain_subind x)))) }
{
    match both(index, part) {
        Ok((index, part)) => Ok(Shape::ConstrainedArray { index, part }),
        Err(e) => Err(e),
    }
}

/// One initial value.
pub fn one_of(value: Result<Expr, Memory>) -> Result<Init, Memory>
    ensures { IfOk result (λ made. OkWith value (λ v. plain_init made ≡ IOne (plain_expr v))) }
{
    match value {
        Ok(value) => Ok(Init::One(value)),
        Err(e) => Err(e),
    }
}

/// A list of all components.
pub fn list_of(parts: Result<Vec<Expr>, Memory>, span: Span) -> Result<Init, Memory>
    ensures { IfOk result (λ made. OkWith parts (λ p. plain_init made ≡ IList (map plain_expr p.items) span)) }
{
    match parts {
        Ok(parts) => Ok(Init::List { parts, span }),
        Err(e) => Err(e),
    }
}

/// One value for all components.
pub fn others_of(part: Result<Expr, Memory>, span: Span) -> Result<Init, Memory>
    ensures { IfOk result (λ made. OkWith part (λ p. plain_init made ≡ IOthers (plain_expr p) span)) }
{
    match part {
        Ok(part) => Ok(Init::Others { part, span }),
        Err(e) => Err(e),
    }
}

/// A pragma PRIORITY of a task.
pub fn priority_of(place: u32, value: Result<Expr, Memory>) -> Result<Priority, Memory>
    ensures { IfOk result (λ made. OkWith value (λ v. plain_priority made ≡ record { place = place; value = plain_expr v })) }
{
    match value {
        Ok(value) => Ok(Priority { place, value }),
        Err(e) => Err(e),
    }
}

/// An entry or a family.
pub fn entry_of(
    name: Word,
    family: Result<Option<Drange>, Memory>,
    formals: Result<Vec<Formal>, Memory>,
    span: Span,
) -> Result<EntryDecl, Memory>
    ensures { IfOk result (λ made. OkWith family (λ r. OkWith formals (λ f. plain_entry made ≡ record { name = name; family = option_map plain_drange r; formals = map plain_formal f.items; span = span }))) }
{
    match both(family, formals) {
        Ok((family, formals)) => Ok(EntryDecl {
            name,
            family,
            formals,
            span,
        }),
        Err(e) => Err(e),
    }
}

/// A task or a task type.
pub fn unit_of(
    name: Word,
    of_kind: bool,
    entries: Result<Vec<EntryDecl>, Memory>,
    priorities: Result<Vec<Priority>, Memory>,
) -> Result<TaskUnit, Memory>
    ensures { IfOk result (λ made. OkWith entries (λ e. OkWith priorities (λ p. plain_task made ≡ record { name = name; of_kind = of_kind; entries = map plain_entry e.items; priorities = map plain_priority p.items }))) }
{
    match both(entries, priorities) {
        Ok((entries, priorities)) => Ok(TaskUnit {
            name,
            of_kind,
            entries,
            priorities,
        }),
        Err(e) => Err(e),
    }
}

/// A program.
pub fn program_of(
    names: Result<Names, Memory>,
    text_io: bool,
    name: Word,
    decls: Result<Vec<Decl>, Memory>,
    body: Result<Body, Memory>,
) -> Result<Program, Memory>
    ensures { IfOk result (λ made. OkWith names (λ n. OkWith decls (λ d. OkWith body (λ b. plain_program made ≡ record { names = n; text_io = text_io; name = name; decls = decls_of (map plain_decl d.items); body = plain_body b })))) }
{
    match all(names, decls, body) {
        Ok((names, decls, body)) => Ok(Program {
            names,
            text_io,
            name,
            decls,
            body,
        }),
        Err(e) => Err(e),
    }
}
