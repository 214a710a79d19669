//! What the tasks of a legal program offer has numbers that the program has.

ghost use Rattle.progress_law.specs.offers.Laws.{LegalOffersAreKnown, LegalSequencesAreKnown, LegalVariantsAreFew};

/// The laws that whatever a task of a legal original offers, whatever has happened, has numbers that the program has (`offers`), and so has each event of
/// a feasible sequence (`sequences`). So feasible events may stand in a sequence file. And fewer than 2^32 events can come next (`few`). The function does
/// nothing: whoever needs a law calls it for its clauses.
pub fn laws()
    ensures offers { LegalOffersAreKnown }
    ensures sequences { LegalSequencesAreKnown }
    ensures few { LegalVariantsAreFew }
{}
