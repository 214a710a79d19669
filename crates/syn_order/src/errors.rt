// Why a sequence is not split, or lists are not joined.

ghost use Rattle.std.specs.Prelude.{◌≡◌};
ghost use Rattle.syn_order.specs.declared.errors.OrderError.TheVariants as errors;

use ada_tree::Memory;
use thiserror::Error;

/// Why there is no answer.
#[derive(Clone, Copy, Debug, PartialEq, Eq, Drop, Error)]
pub enum OrderError {
    /// The event at this place, from 1, is the first that is not admitted by what is known after those before it.
    #[error("event {at} cannot come next")]
    NotAdmitted { at: u32 },
    /// The lists have no order, and the list of this task is the first that is not used up.
    #[error("the events of task {task} have no order")]
    NoOrder { task: u32 },
    /// There was not enough memory.
    #[error("out of memory")]
    Memory,
}

impl From<Memory> for OrderError {
    ghost from_gives = { λ _ e. e ≡ errors.Memory };

    fn from(_e: Memory) -> OrderError {
        OrderError::Memory
    }
}
