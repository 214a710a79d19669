// Whether two expressions, and what is built of them alone, are the same: equal but for places, names compared by their texts. It takes no memory. Both sides of an `&` are asked, so each function has one way through it.
#![tactic(auto, using(crate::proofs::expressions::SameLemmas::places, crate::proofs::expressions::Joined::joined))]

mod calls;
mod expressions;

pub use calls::{
    same_call, same_callees, same_choices, same_formals, same_label, same_parts, same_schemes,
    same_target,
};
pub use expressions::{
    same_drange, same_expr, same_exprs, same_name, same_option, same_subind, same_word, same_words,
};
