// The index and the actuals of a call, and the modes of the formals of its entry.

ghost use Rattle.std.specs.Prelude.{◌≡◌, length, map, min, option_copied, option_map};
ghost use Rattle.ada_tree.specs.PlainExpr.{plain_expr};
ghost use Rattle.ada_tree.specs.PlainStmt.{plain_call};
ghost use Rattle.normal_model.specs.Calls.{lists_called, slots_called};

use ada_tree::{Call, Expr, ParMode};
use normal_lookups::pieces::Meanings;

/// The index of a family in a call.
pub(crate) fn index_called<'a, M: Meanings>(m: &M, call: &'a Call) -> Option<&'a Expr>
    requires { M.fits m.now }
    ensures { option_map plain_expr (option_copied result) ≡ (lists_called (M.setting m.now) (plain_call call.now)).index }
{
    match &call.args {
        Some(args) => {
            if m.is_family(m.entry_called(call)) {
                args.first.first()
            } else {
                None
            }
        }
        None => None,
    }
}

/// The actuals of a call.
pub(crate) fn actuals_called<'a, M: Meanings>(m: &M, call: &'a Call) -> &'a [Expr]
    requires { M.fits m.now }
    ensures { map plain_expr result.now ≡ (lists_called (M.setting m.now) (plain_call call.now)).actuals }
{
    match &call.args {
        Some(args) => {
            if m.is_family(m.entry_called(call)) {
                match &args.second {
                    Some(second) => second,
                    None => &[],
                }
            } else {
                &args.first
            }
        }
        None => &[],
    }
}

/// The modes of the formals of the entry that is called.
pub(crate) fn modes_called<'m, M: Meanings>(m: &'m M, call: &Call) -> &'m [ParMode]
    requires { M.fits m.now }
    ensures { result.now ≡ map (λ x. x.mode) (slots_called (M.setting m.now) (plain_call call.now)) }
{
    m.modes(m.entry_called(call))
}

/// How many of these actuals have a formal.
pub(crate) fn count_with_formal<M: Meanings>(m: &M, call: &Call, actuals: &[Expr]) -> usize
    requires { M.fits m.now }
    ensures { result ≡ min (length (slots_called (M.setting m.now) (plain_call call.now))) (length actuals.now) }
{
    modes_called(m, call).len().min(actuals.len())
}

/// How many actuals have a formal.
pub(crate) fn count_called<M: Meanings>(m: &M, call: &Call) -> usize
    requires { M.fits m.now }
    ensures { result ≡ min (length (slots_called (M.setting m.now) (plain_call call.now))) (length (lists_called (M.setting m.now) (plain_call call.now)).actuals) }
{
    modes_called(m, call)
        .len()
        .min(actuals_called(m, call).len())
}
