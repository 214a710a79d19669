//! How the tasks of a collecting text with abort statements tell the recorder.
