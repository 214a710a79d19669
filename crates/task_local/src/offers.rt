// What a task offers.

use crate::{CallForm, Choice};

/// What a task offers to others where it stands (9.5, 9.7, 9.10). Entries are numbered from 1 over the whole program; the index of a plain
/// entry is 0.
#[derive(Clone, Copy)]
pub enum Offer<'a> {
    /// Nothing: it has a local step left.
    None,
    /// A call of the member `i` of the entry `e`.
    Call { form: CallForm, e: u32, i: i32 },
    /// A wait: the open accept alternatives in written order, then the else part, the delays that can be taken with `k` ascending, and
    /// terminate.
    Wait(&'a [Choice]),
    /// It stands at the end of its innermost accept body.
    Finish,
    /// It stands at the end of its own body.
    End,
    /// It stands at an abort statement whose next name is the task `x`.
    Abort { x: u32 },
}
