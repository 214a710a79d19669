//! What is asked of the statements of a body, statement by statement.
