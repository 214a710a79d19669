// What is known of an expression where its value is looked at.

ghost use Rattle.std.specs.Prelude.{◌≡◌};
ghost use Rattle.ada_expr_rules.specs.Known.{value_in, ok_of};

use ada_tree::Span;

/// The kind of an expression, and its value where it is static (or the place of the operation that raises).
#[derive(Clone, Copy)]
pub struct Known {
    pub kind: Option<u32>,
    pub value: Option<Result<i64, Span>>,
}

// The value, where there is one.
fn ok(value: Option<Result<i64, Span>>) -> Option<i64>
    ensures { result ≡ ok_of value }
{
    match value {
        Some(value) => match value {
            Ok(value) => Some(value),
            Err(_) => None,
        },
        None => None,
    }
}

impl Known {
    /// The value, where the expression is of that kind and static, and no operation in it raises.
    pub fn value_in(self, kind: u32) -> Option<i64>
        ensures { result ≡ value_in kind self }
    {
        match self.kind {
            Some(other) => { if kind == other { ok(self.value) } else { None } }
            None => None,
        }
    }
}
