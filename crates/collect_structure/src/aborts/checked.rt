//! That a collecting text of a program with abort statements meets the rules 13 to 23, where its normal form does and is as asked.
