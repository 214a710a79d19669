//! What the table of types of a rewritten program has in common with that of the original. The module has no functions of its own but
//! the one that carries the laws.

ghost use Rattle.task_laws.specs.legal.rewritten_types.Laws.{DeclaredOnce, KindsAreNamed, RewrittenIsRooted, RootedAgrees, StayingIsFront, UnvaluedHasNoMark};

/// Carries the laws of rewritten declarations. Where a rewriter leaves out tasks, objects of task types and bodies, and puts
/// declarations behind those that stay, the tables of both programs keep that of the declarations that stay (`rooted`). Two such
/// tables agree on all old names (`agree`). The names of a program that meets the static rules are declared once (`once`); one of
/// them that means no value names no type in the table (`unvalued`), and each kind of values has a declared name (`named`). The
/// declarations of such a program but tasks, objects of task types and bodies may stay in this way (`met`).
pub fn laws()
    ensures rooted { RewrittenIsRooted }
    ensures agree { RootedAgrees }
    ensures once { DeclaredOnce }
    ensures unvalued { UnvaluedHasNoMark }
    ensures named { KindsAreNamed }
    ensures met { StayingIsFront }
{}
