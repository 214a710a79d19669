//! How the tasks of a collecting text tell the recorder.
