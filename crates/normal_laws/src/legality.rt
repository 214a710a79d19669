//! That the normal form of each legal program is legal. The module has no functions of its own but the one that carries the laws.
pub mod asked;
pub mod checks;
pub mod declares_once;
pub mod numbers;
pub mod placed;
pub mod scopes;
pub mod typed_declarations;
pub mod variables_marked;

ghost use Rattle.normal_laws.specs.legality.Laws.{IsMet, MeetsByPlaces, NormalHasNames, NormalIsLegal, NormalMeetsAtPlaces, NormalMeetsTypes, PlacesMeet};

/// Carries the law that the normal form of a legal program is legal. A program meets the first twelve rules where its places meet them
/// (`places`), and each of its places meets them then (`met_there`). The normal form of a legal program has the names of every program where
/// they are few enough (`names`). Each of its places meets the first twelve rules but for rule Duplicate (`met_at_places`), so it meets these
/// rules (`types`), and it is legal as a text of any kind, with the numbers of its definition (`legal`); so it is with two programs (`met`).
pub fn laws()
    ensures places { MeetsByPlaces }
    ensures met_there { PlacesMeet }
    ensures names { NormalHasNames }
    ensures met_at_places { NormalMeetsAtPlaces }
    ensures types { NormalMeetsTypes }
    ensures legal { NormalIsLegal }
    ensures met { IsMet }
{}
