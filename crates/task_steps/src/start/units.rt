// The units that tasks run (9.1).

ghost use Rattle.std.specs.Prelude.{◌≡◌, map, option_copied, option_map};
ghost use Rattle.ada_tree.specs.PlainDecl.{decls_of, plain_decl};
ghost use Rattle.ada_tree.specs.PlainProgram.{plain_program};
ghost use Rattle.task_model.specs.Starting.{no_unit, unit_among, unit_of, unit_of_decl, unit_of_info};
ghost use Rattle.task_steps.specs.start.Plain.{plain_unit};

use ada_tree::{Body, Decl, DeclKind, NameId, Program};
use syn_event::TaskInfo;
use task_links::Links;

/// The unit that a task runs: whether it is the main program's, its declarations and its body. A name that has no body, as in no legal
/// program, has a unit without one, which is empty. A contract sees the unit of the definitions by `plain_unit`.
#[derive(Clone, Copy)]
pub struct Unit<'p> {
    pub in_main: bool,
    pub decls: &'p [Decl],
    pub body: Option<&'p Body>,
}

// The unit of a task body of this name; another declaration is none (9.1).
fn unit_of_decl<'p>(decl: &'p Decl, name: NameId) -> Option<Unit<'p>>
    ensures { option_map plain_unit result ≡ unit_of_decl (plain_decl decl.now) name }
{
    match &decl.kind {
        DeclKind::TaskBody {
            name: word,
            objects,
            body,
        } => {
            if word.name.0 == name.0 {
                Some(Unit {
                    in_main: false,
                    decls: objects,
                    body: Some(body),
                })
            } else {
                None
            }
        }
        DeclKind::Number { .. } => None,
        DeclKind::Object { .. } => None,
        DeclKind::Enumeration { .. } => None,
        DeclKind::Array { .. } => None,
        DeclKind::Subtype { .. } => None,
        DeclKind::Exception { .. } => None,
        DeclKind::IntIo { .. } => None,
        DeclKind::Pragma { .. } => None,
        DeclKind::Task(_) => None,
    }
}

// The unit of a name that has no body.
fn no_unit<'p>() -> Unit<'p>
    ensures { plain_unit result ≡ no_unit }
{
    Unit {
        in_main: false,
        decls: &[],
        body: None,
    }
}

// The unit of the first task body of a name among declarations (9.1).
fn unit_among<'p>(decls: &'p [Decl], name: NameId) -> Unit<'p>
    ensures { plain_unit result ≡ unit_among (decls_of (map plain_decl decls.now)) name }
{
    for decl in decls {
        match unit_of_decl(decl, name) {
            Some(unit) => return unit,
            None => {}
        }
    }
    no_unit()
}

// The unit that a task of the numbers runs; where there is no such task it is empty.
fn unit_of_info<'p>(program: &'p Program, info: Option<&TaskInfo>) -> Unit<'p>
    ensures { plain_unit result ≡ unit_of_info (plain_program program.now) (option_copied info.entry) }
{
    match info {
        Some(info) => unit_among(&program.decls, info.unit),
        None => no_unit(),
    }
}

/// The unit that the task of a number runs: main its own, and each other task the body of its task or task type (9.1).
pub fn unit_of<'p>(links: &'p Links<'p>, number: u32) -> Unit<'p>
    ensures { plain_unit result ≡ unit_of links.now.program links.now.numbers number }
{
    let program = links.program();
    if number == 0 {
        return Unit {
            in_main: true,
            decls: &program.decls,
            body: Some(&program.body),
        };
    }
    unit_of_info(program, links.numbers().tasks.get(number as usize))
}
