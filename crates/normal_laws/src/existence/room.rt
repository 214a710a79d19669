//! That the calls in a legal program have actuals for formals, and that each task runs the one body of its name.
