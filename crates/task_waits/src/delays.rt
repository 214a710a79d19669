// The delay alternatives of a selective wait (9.7.1).

ghost use Rattle.std.specs.Prelude.{◌≡◌, ◌<◌, ◌+◌, ◌^◌, map, option_map};
ghost use Rattle.ada_tree.specs.PlainStmt.{plain_alt, plain_alt_kind, alts_of, seen};
ghost use Rattle.task_model.specs.Waits.{delay_part, delay_stmts};
ghost use Rattle.task_waits.specs.inner.Choosing.{delay_at};

use crate::choosing::delays_with;
use ada_tree::{Alt, AltKind, Stmt};

// The statements of an alternative, if it is a delay.
fn delay_part<'p>(kind: &'p AltKind) -> Option<&'p [Stmt]>
    ensures { option_map (λ stmts. seen stmts.now) result ≡ delay_part (plain_alt_kind kind.now) }
{
    match kind {
        AltKind::Accept { .. } => None,
        AltKind::Delay { stmts, .. } => Some(stmts),
        AltKind::Terminate => None,
    }
}

// The same, where it is the delay of this number and so many delays are before it.
fn delay_at<'p>(kind: &'p AltKind, delays: usize, k: u32) -> Option<&'p [Stmt]>
    requires { delays + 1 < 2 ^ 64 }
    ensures { option_map (λ stmts. seen stmts.now) result ≡ delay_at (plain_alt_kind kind.now) delays k }
{
    if k as usize == delays + 1 {
        delay_part(kind)
    } else {
        None
    }
}

/// The statements of the `k`-th delay alternative of a wait, counted from 1, closed ones included; none where there is no such (9.7.1).
pub fn delay_stmts<'p>(alts: &'p [Alt], k: u32) -> &'p [Stmt]
    ensures { seen result.now ≡ delay_stmts (alts_of (map plain_alt alts.now)) 0 k }
{
    let mut delays: usize = 0;
    for alt in alts {
        match delay_at(&alt.kind, delays, k) {
            Some(stmts) => return stmts,
            None => {}
        }
        delays = delays_with(&alt.kind, delays);
    }
    &[]
}
