//! Entry calls of one task where it stands: the member that a call names, the values that go to the formals of an accept body, and
//! those that come back (sections 6.2, 6.4.1 and 9.5 of ANSI/MIL-STD-1815A).

mod argument_lists;
mod calls;
mod formals;
mod here;
mod returns;

pub use argument_lists::{Lists, lists_of};
pub use calls::Member;
pub use formals::open_formals;
pub use here::Here;
pub use returns::{copy_back, finals};
