//! That the statements of a collecting text are as asked, from what is asked of those of the normal form.
