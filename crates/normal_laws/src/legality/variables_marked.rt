//! That each variable of the normal form has the mark of the subtype with which it is declared, and that all its places meet the static rules 1 and 3 to 12.
