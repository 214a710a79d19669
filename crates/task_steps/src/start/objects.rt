// The objects of a unit (3.2.1, 9.1).

ghost use Rattle.std.specs.Prelude.{◌≡◌, [], map, option_map, IfOk, OnOk};
ghost use Rattle.ada_tree.specs.PlainDecl.{decls_of, plain_decl, plain_init};
ghost use Rattle.task_model.specs.Starting.{after_declaration, is_in_types, objects_of, with_objects};

use crate::start::initials::initials;
use crate::start::object_forms::form_of;
use ada_tree::{Decl, DeclKind, Init, Memory, Word};
use ada_value::Form;
use std::alloc::Global;
use task_links::TypeNames;
use task_links::store::Objects;

// Whether an object of a form stands in the types, and is no variable: a scalar constant of main.
fn is_in_types(in_main: bool, constant: bool, form: Form) -> bool
    ensures { result ≡ is_in_types in_main constant form }
{
    in_main && constant && form.index.is_none()
}

// Adds the objects of the names of one declaration, with their initial values.
fn add_objects(
    objects: &mut Objects,
    alloc: Global,
    names: &TypeNames,
    form: Form,
    init: &Option<Init>,
    words: &[Word],
) -> Result<(), Memory>
    ensures { OnOk result (objects.new ≡ with_objects names.now form (option_map plain_init init.now) words.now objects.old) }
{
    let values = initials(alloc, names, form, init)?;
    for word in words {
        objects.push(word.name, form, &values)?;
    }
    Ok(())
}

// Adds the objects of a declaration: only an object declaration has some, and what is no object, or stands in the types, is none (3.2).
fn add_declaration(
    objects: &mut Objects,
    alloc: Global,
    names: &TypeNames,
    in_main: bool,
    decl: &Decl,
) -> Result<(), Memory>
    ensures { OnOk result (objects.new ≡ after_declaration names.now in_main (plain_decl decl.now) objects.old) }
{
    match &decl.kind {
        DeclKind::Object {
            names: words,
            constant,
            shape,
            init,
        } => match form_of(names, shape) {
            Some(form) => {
                if is_in_types(in_main, *constant, form) {
                    Ok(())
                } else {
                    add_objects(objects, alloc, names, form, init, words)
                }
            }
            None => Ok(()),
        },
        DeclKind::Number { .. } => Ok(()),
        DeclKind::Enumeration { .. } => Ok(()),
        DeclKind::Array { .. } => Ok(()),
        DeclKind::Subtype { .. } => Ok(()),
        DeclKind::Exception { .. } => Ok(()),
        DeclKind::IntIo { .. } => Ok(()),
        DeclKind::Pragma { .. } => Ok(()),
        DeclKind::Task(_) => Ok(()),
        DeclKind::TaskBody { .. } => Ok(()),
    }
}

/// The objects of the declarations of a unit, of main where `in_main` is true, with their initial values. It fails by want of memory
/// alone.
pub(crate) fn objects_of(
    alloc: Global,
    names: &TypeNames,
    in_main: bool,
    decls: &[Decl],
) -> Result<Objects, Memory>
    ensures { IfOk result (λ objects. objects ≡ objects_of names.now in_main (decls_of (map plain_decl decls.now)) []) }
{
    let mut objects = Objects::new(alloc);
    for decl in decls {
        add_declaration(&mut objects, alloc, names, in_main, decl)?;
    }
    Ok(objects)
}
