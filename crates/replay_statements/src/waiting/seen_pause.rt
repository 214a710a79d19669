// The delay alternatives of a wait.

use ada_tree::Expr;

/// A delay alternative: its duration in thousandths of a second, and a copy of its guard.
#[derive(Drop)]
pub struct SeenPause {
    pub thousandths: u32,
    pub guard: Option<Expr>,
}
