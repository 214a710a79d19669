//! That a collecting text of a program with abort statements is well placed, where its normal form is as asked.
