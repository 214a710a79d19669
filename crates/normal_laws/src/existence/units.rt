//! That a legal program is as the law of normal forms asks, of its units: its names, tasks, accepts and objects.

ghost use Rattle.normal_laws.specs.existence.Laws.{IsMet};
ghost use Rattle.normal_laws.specs.existence.units.Laws.{FewNamesSmall, LegalConforms, LegalHasTokens, LegalIsOrdered, LegalIsOwn, LegalIsPlain, LegalIsWell, LegalNamesTell, LegalTypesAreFull, LightHasFew, LocalsAreFree};

/// Carries the laws of the units of a legal program that is well placed, as each one that is read. It meets the rules on types with bodies
/// last (`ordered`), its words are such as the source can hold (`tokens`), tasks of one name in its normal form run one body (`tell`), its
/// accepts conform to their entries (`conforms`), none of its types is empty (`full`), and what is no constant of main has the name of no
/// constant and of no literal (`free`). Where its enumerations are small, its names are its own (`own`), its objects are plain (`plain`),
/// and it is well made (`well`); they are small where it has at most 2^31 names (`small`). A unit with a light body gets few variables
/// (`few`). Two programs are so (`met`).
pub fn laws()
    ensures ordered { LegalIsOrdered }
    ensures tokens { LegalHasTokens }
    ensures tell { LegalNamesTell }
    ensures conforms { LegalConforms }
    ensures full { LegalTypesAreFull }
    ensures free { LocalsAreFree }
    ensures own { LegalIsOwn }
    ensures plain { LegalIsPlain }
    ensures well { LegalIsWell }
    ensures few { LightHasFew }
    ensures small { FewNamesSmall }
    ensures met { IsMet }
{}
