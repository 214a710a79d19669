//! What the controller of a replay text does, as one task by itself. The crate has no functions of its own but those that carry the laws.
#![tactic(auto)]

pub mod runs;

ghost use Rattle.table_law.specs.Controllers.{IsController, CanMakeAll};
ghost use Rattle.table_law.specs.Laws.{ControllersMakeOperations, ControlNamesAreApart, ControlNamesAreThere};
ghost use Rattle.table_law.specs.Examples.{controller, entries, operations};

/// Carries the laws of the controller, in every program that is as `IsController` asks. From its start it comes to before its operations, and from each
/// to the next; before each it offers that one alone, and a permit hands back its three numbers (`makes`). The ids of its names are apart wherever
/// their texts are among the names (`apart`), as they are once they were interned (`there`). There is a controller as is asked, of operations that it
/// can make (`met`, `possible`).
pub fn laws()
    ensures makes { ControllersMakeOperations }
    ensures apart { ControlNamesAreApart }
    ensures there { ControlNamesAreThere }
    ensures met { IsController controller entries }
    ensures possible { CanMakeAll controller operations }
{}
