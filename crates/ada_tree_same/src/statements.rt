// Whether two statements are the same: equal but for places, names compared by their texts. It takes no memory.

mod simple;
mod statements;

pub use statements::{same_body, same_stmt};
