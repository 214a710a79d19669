//! That the declarations of a legal program's normal form meet the static rules 1 and 3 to 12.
