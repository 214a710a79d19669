//! That the statements of a collecting text of a program with abort statements are as asked, from what is asked of those of the normal form.
