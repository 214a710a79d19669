//! Pages: what is written goes to its output through a buffer, in few writes.

mod paging;

pub use paging::Page;
