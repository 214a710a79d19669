//! That a collecting text is well placed, where its normal form is as asked.
