// Copies of expressions and of what is built of them alone, with the same ids and places.

mod calls;
mod copying;
mod expressions;
mod joining;

pub use calls::{copy_callees, copy_choices, copy_formals, copy_parts, copy_scheme};
pub use copying::ExprCopy;
pub use expressions::{boxed_attribute, copy_exprs, copy_option, copy_words};
pub use joining::{all, both, put, there};
