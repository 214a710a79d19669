// What a rewriter says of itself, and does.

ghost use Rattle.std.specs.Prelude.{◌≡◌, IfOk, OnOk};
ghost use Rattle.ada_tree.specs.PlainStmt.{plain_stmt, plain_alt, seen};
ghost use Rattle.task_model.specs.Frames.{in_front};

use ada_tree::{Alt, Memory, Stmt};

/// A rewriter of statements. What it keeps on its way stands in a `Track`, of which contracts see the `state`; `rule` says what it does, and `fits` that a track is one of this rewriter.
///
/// Each call fails by want of memory alone, and says nothing of what it changed then.
pub trait Rewriter {
    ghost use Rattle.tree_rewriting.specs.walking.Rules.{Rule};

    type Track;

    ghost State: { Type 0 };

    ghost state: { Self.Track → State };

    ghost rule: { Self → Rule State };

    ghost fits: { Self → Self.Track → Type 0 };

    /// A statement is entered, before its parts. The result is handed to `replace_stmt` behind them.
    fn enter_stmt(&self, track: &mut Self::Track, stmt: &Stmt) -> Result<u32, Memory>
        requires { fits self.now track.old }
        ensures number { IfOk result (λ n. n ≡ (rule self.now).number (state track.old)) }
        ensures state { OnOk result (state track.new ≡ (rule self.now).entered_stmt (state track.old) (plain_stmt stmt.now)) }
        ensures fits { OnOk result (fits self.now track.new) };

    /// An alternative of a selective wait is entered, and what it puts in front of the wait goes behind what is put already. The result is handed to `leave_alternative` behind its parts.
    fn enter_alternative(
        &self,
        track: &mut Self::Track,
        alt: &Alt,
        out: &mut Vec<Stmt>,
    ) -> Result<u32, Memory>
        requires { fits self.now track.old }
        ensures number { IfOk result (λ n. n ≡ (rule self.now).number (state track.old)) }
        ensures lead { OnOk result (seen out.new.items ≡ in_front (seen out.old.items) ((rule self.now).lead ((rule self.now).number (state track.old)) (plain_alt alt.now))) }
        ensures state { OnOk result (state track.new ≡ (rule self.now).entered_alternative (state track.old) (plain_alt alt.now)) }
        ensures fits { OnOk result (fits self.now track.new) };

    /// An alternative whose parts are rewritten becomes what stands in its place.
    fn leave_alternative(
        &self,
        track: &Self::Track,
        number: u32,
        alt: &mut Alt,
    ) -> Result<(), Memory>
        requires { fits self.now track.now }
        ensures { OnOk result (plain_alt alt.new ≡ (rule self.now).left_alternative number (plain_alt alt.old)) };

    /// What stands in the place of a statement whose parts are rewritten goes behind what is put already. The statement may be taken apart.
    fn replace_stmt(
        &self,
        track: &Self::Track,
        number: u32,
        stmt: &mut Stmt,
        out: &mut Vec<Stmt>,
    ) -> Result<(), Memory>
        requires { fits self.now track.now }
        ensures { OnOk result (seen out.new.items ≡ in_front (seen out.old.items) ((rule self.now).replaced_stmt number (plain_stmt stmt.old))) };
}
