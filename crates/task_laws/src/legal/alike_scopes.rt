//! Scopes of a program and of its rewriting in which old names mean the same. The module has no functions of its own but the one that
//! carries the laws.

ghost use Rattle.task_laws.specs.legal.alike_scopes.Laws.{AlikeRefusesSame, CalledIsSame, CallsRefuseSame, DrangesAreSame, ExprsAreSame, FewerAreAlike, FormalsAreAlike, InsideIsAlike, IsMet, LoopIsAlike, ObjectsAreAlike, RootedIsSame, SelectorsAreSame, TargetsAreSame, TasksRefuseSame};

/// Carries the laws of scopes that are alike. Two tables that keep a sound one say the same of old names (`rooted`). What speaks of old
/// names alone and is met in one of two scopes that are alike is met in the other (`refused`); so is a single task that is called
/// (`tasks`) and the call of an old entry (`calls`), which is the same one (`called`). Where old names mean the same, so do expressions
/// of them (`exprs`), selectors (`selectors`), targets (`targets`) and discrete ranges (`ranges`). Two scopes that are alike are so where
/// fewer names are old (`fewer`), in an inner scope (`inside`), in accepts (`formals`), in loops (`loops`), and behind the objects of a
/// body (`objects`). Two scopes with other places are so (`met`).
pub fn laws()
    ensures rooted { RootedIsSame }
    ensures refused { AlikeRefusesSame }
    ensures tasks { TasksRefuseSame }
    ensures calls { CallsRefuseSame }
    ensures called { CalledIsSame }
    ensures exprs { ExprsAreSame }
    ensures selectors { SelectorsAreSame }
    ensures targets { TargetsAreSame }
    ensures ranges { DrangesAreSame }
    ensures fewer { FewerAreAlike }
    ensures inside { InsideIsAlike }
    ensures formals { FormalsAreAlike }
    ensures loops { LoopIsAlike }
    ensures objects { ObjectsAreAlike }
    ensures met { IsMet }
{}
