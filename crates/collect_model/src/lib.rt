//! The collecting text of a program, as definitions in `specs/`: the normal form of the program, in which each task tells a recorder what it is about to do
//! or has done, and the recorder writes the sequence file of the run. The crate has no code but the type of what is looked up once: its definitions are
//! what a rewriter is to be proved against.
#![tactic(auto)]

pub mod aborts;

use ada_tree::NameId;

/// The ids of the names that a collecting text adds: the instance of INTEGER_IO and the type of flags; the formal that tells an acceptor its caller; the two
/// variables of a unit; the recorder and its entry, with the formals of that; and the recorder's variables.
#[derive(Clone, Copy)]
pub struct AddedNames {
    /// The instance of INTEGER_IO, DED_INT_IO.
    pub int_io: NameId,
    /// The type of an array with one flag a task, DED_FLAGS.
    pub flags: NameId,
    /// The formal of an entry that holds its caller's number, DED_C.
    pub caller: NameId,
    /// The variable of a unit that takes the recorder's answer, DED_G.
    pub answer: NameId,
    /// The variable of a unit that tells which part of its last conditional or timed call came, DED_W.
    pub part: NameId,
    /// The recorder, DED_RECORD.
    pub recorder: NameId,
    /// Its entry, NOTE.
    pub note: NameId,
    /// The formals of that entry, DED_NK, DED_NS, DED_NA, DED_NI, DED_NO and DED_NG: the kind of the note, the task that it is about, and an
    /// entry or a delay alternative; the member of a family and the entry's owner; and the answer.
    pub kind: NameId,
    pub subject: NameId,
    pub argument: NameId,
    pub index: NameId,
    pub owner: NameId,
    pub reply: NameId,
    /// The recorder's flags of the tasks that are at their end, DED_GONE.
    pub gone: NameId,
    /// Its flags of the tasks whose call has been accepted since they were before it, DED_MET.
    pub met: NameId,
}
