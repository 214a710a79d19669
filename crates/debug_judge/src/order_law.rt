//! The order of neighbours that touch no common task is of no matter to a program: exchanged, they give a sequence that is as feasible, shows the same
//! outputs, and is judged feasible where the other is.

ghost use Rattle.debug_judge.specs.order_law.Laws.{AlikeAreSame, CompletionsAreApart, JudgedIsAdmitted, ListsAreSame, NeighboursExchange, OrdersAreJudged};

/// Carries the laws, for every tree, table of types, list of inputs and numbers. Two sequences that differ in the order of two neighbours which touch no
/// common task are the same to the program: either is feasible where the other is, they show the same outputs of all tasks, and with the same bound on
/// local steps either is judged feasible where the other is (`neighbours`). So are two sequences of which one comes from the other by such exchanges
/// (`alike`), and two admitted sequences that have the same lists (`lists`). So the order that lists join into is judged feasible exactly where each
/// sequence with these lists is, and exactly where one of them is (`orders`). A sequence that is judged feasible is feasible and admitted (`judged`). In each
/// program the completions of two tasks are such neighbours (`met`). The function does nothing: whoever needs a law calls it for its clauses.
pub fn laws()
    ensures neighbours { NeighboursExchange }
    ensures alike { AlikeAreSame }
    ensures lists { ListsAreSame }
    ensures orders { OrdersAreJudged }
    ensures judged { JudgedIsAdmitted }
    ensures met { CompletionsAreApart }
{}
