//! What is asked of the bodies of a legal program, so that those of its normal form meet the static rules 1 and 3 to 12.
