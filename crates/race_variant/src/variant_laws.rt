// The laws of variants and of going on.

ghost use Rattle.race_variant.specs.GoingLaws.{VariantsAreKnown, VariantsAreFew, OneGoesOn, StaysFeasible, StaysFit, EndsAtOnce};

use ded_io::Chooser;

/// The laws of variants, and of going on by the choices of a chooser. The function does nothing: whoever needs a law calls it for its clauses.
pub fn laws<C: Chooser>(_chooser: &C)
    ensures known { VariantsAreKnown }
    ensures few { VariantsAreFew }
    ensures one { OneGoesOn C.word C.next }
    ensures feasible { StaysFeasible C.word C.next }
    ensures fit { StaysFit C.word C.next }
    ensures met { EndsAtOnce C.word C.next }
{}
