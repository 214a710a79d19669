//! Events of a program, the numbers of its tasks and entries, what an event of a rewritten text stands for,
//! and the static rules that a program must meet.
#![tactic(auto)]

mod limits;
mod meanings;
mod naming;
mod numbering;
mod origin;
mod showing;

pub use event_machine::Event;
pub use limits::What;
pub use meanings::Meant;
pub use naming::{name_of, show_task};
pub use numbering::{EntryInfo, Mode, Numbers, TaskInfo};
pub use origin::back;
pub use showing::show;
