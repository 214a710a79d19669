//! The laws of orders, and the law of exchange.
//! The module has no functions of its own but those that carry the laws.

ghost use Rattle.syn_order.specs.Laws.{OrdersOfAll, SameListsAreAlike};
ghost use Rattle.syn_order.specs.exchange.Example.{ThreeAreExchanged};
ghost use Rattle.syn_order.specs.exchange.Laws.{FeasibleAreAdmitted, LawOfAlike, LawOfExchange, LawOfLists};

/// Carries the laws of orders. Lists have an order exactly where they come from some admitted sequence; they come from their order, and have no other one;
/// and lists without an order have one task whose list is the first that is not used up (`orders`). Two admitted sequences have the same lists exactly
/// where they differ only in the order of neighbours that touch no common task (`alike`).
pub fn laws()
    ensures orders { OrdersOfAll }
    ensures alike { SameListsAreAlike }
{}

/// Carries the law of exchange, for a program whose tasks keep the rules of tasks, in its opening state, and have states of the type `L`. Two neighbours in
/// a sequence that touch no common task can be exchanged (`neighbours`): either sequence is feasible where the other is, both lead to the same tasks by the
/// very same local steps, whatever a run with the one shows some run with the other shows, and with whatever bound on local steps all goes well with the
/// one where it does with the other (`AreSame`). So it is with each two sequences of which one comes from the other by such exchanges (`alike`), and with
/// each two admitted sequences that have the same lists (`lists`). A feasible sequence is admitted (`admitted`). In a program of three tasks a
/// rendezvous and the completion of the third task are exchanged (`example`).
pub fn exchange<L>()
    ensures neighbours { LawOfExchange L }
    ensures alike { LawOfAlike L }
    ensures lists { LawOfLists L }
    ensures admitted { FeasibleAreAdmitted L }
    ensures example { ThreeAreExchanged }
{}
