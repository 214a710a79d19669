// Whether what declarations are built of is the same: objects, initial values, entries and tasks.

ghost use Rattle.std.specs.Prelude.{◌≡◌, ◌↔◌, IsTrue, map, option_map};
ghost use Rattle.std.specs.List.{AllZip};
ghost use Rattle.ada_tree.specs.PlainDecl.{plain_shape, plain_init, plain_priority, plain_entry, plain_task};
ghost use Rattle.ada_tree.specs.Same.{SameOption, SameShape, SameInit, SamePriority, SameEntry, SameTask};

use crate::expressions::{
    same_drange, same_expr, same_exprs, same_formals, same_subind, same_word,
};
use ada_tree::{EntryDecl, Init, Names, Priority, Shape, TaskUnit};

pub(crate) fn same_shape(left: &Names, right: &Names, a: &Shape, b: &Shape) -> bool
    ensures { IsTrue result ↔ SameShape left.now right.now (plain_shape a.now) (plain_shape b.now) }
{
    match a {
        Shape::Plain(a) => match b {
            Shape::Plain(b) => same_subind(left, right, a, b),
            Shape::ConstrainedArray { .. } => false,
        },
        Shape::ConstrainedArray { index, part } => match b {
            Shape::ConstrainedArray { index: i, part: p } => {
                same_drange(left, right, index, i) && same_subind(left, right, part, p)
            }
            Shape::Plain(_) => false,
        },
    }
}

fn same_init(left: &Names, right: &Names, a: &Init, b: &Init) -> bool
    ensures { IsTrue result ↔ SameInit left.now right.now (plain_init a.now) (plain_init b.now) }
{
    match a {
        Init::One(a) => match b {
            Init::One(b) => same_expr(left, right, a, b),
            _ => false,
        },
        Init::List { parts, .. } => match b {
            Init::List { parts: p, .. } => same_exprs(left, right, parts, p),
            _ => false,
        },
        Init::Others { part, .. } => match b {
            Init::Others { part: p, .. } => same_expr(left, right, part, p),
            _ => false,
        },
    }
}

// Whether two initial values that may be left out are the same.
pub(crate) fn same_inits(left: &Names, right: &Names, a: &Option<Init>, b: &Option<Init>) -> bool
    ensures { IsTrue result ↔ SameOption (SameInit left.now right.now) (option_map plain_init a.now) (option_map plain_init b.now) }
{
    match a {
        Some(a) => match b {
            Some(b) => same_init(left, right, a, b),
            None => false,
        },
        None => b.is_none(),
    }
}

fn same_priority(left: &Names, right: &Names, a: &Priority, b: &Priority) -> bool
    ensures { IsTrue result ↔ SamePriority left.now right.now (plain_priority a.now) (plain_priority b.now) }
{
    a.place == b.place && same_expr(left, right, &a.value, &b.value)
}

fn same_entry(left: &Names, right: &Names, a: &EntryDecl, b: &EntryDecl) -> bool
    ensures { IsTrue result ↔ SameEntry left.now right.now (plain_entry a.now) (plain_entry b.now) }
{
    same_word(left, right, a.name, b.name)
        && match &a.family {
            Some(a) => match &b.family {
                Some(b) => same_drange(left, right, a, b),
                None => false,
            },
            None => b.family.is_none(),
        }
        && same_formals(left, right, &a.formals, &b.formals)
}

fn same_entries(left: &Names, right: &Names, a: &[EntryDecl], b: &[EntryDecl]) -> bool
    ensures { IsTrue result ↔ AllZip (SameEntry left.now right.now) (map plain_entry a.now) (map plain_entry b.now) }
{
    if a.len() != b.len() {
        return false;
    }
    for i in 0..a.len() {
        if !same_entry(left, right, &a[i], &b[i]) {
            return false;
        }
    }
    true
}

fn same_priorities(left: &Names, right: &Names, a: &[Priority], b: &[Priority]) -> bool
    ensures { IsTrue result ↔ AllZip (SamePriority left.now right.now) (map plain_priority a.now) (map plain_priority b.now) }
{
    if a.len() != b.len() {
        return false;
    }
    for i in 0..a.len() {
        if !same_priority(left, right, &a[i], &b[i]) {
            return false;
        }
    }
    true
}

pub(crate) fn same_task(left: &Names, right: &Names, a: &TaskUnit, b: &TaskUnit) -> bool
    ensures { IsTrue result ↔ SameTask left.now right.now (plain_task a.now) (plain_task b.now) }
{
    same_word(left, right, a.name, b.name)
        && a.of_kind == b.of_kind
        && same_entries(left, right, &a.entries, &b.entries)
        && same_priorities(left, right, &a.priorities, &b.priorities)
}
