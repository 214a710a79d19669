// Why a program is not rewritten.

ghost use Rattle.std.specs.Prelude.{◌≡◌};
ghost use Rattle.normal_form.specs.declared.errors.XformError.TheVariants as errors;

use ada_tree::Memory;
use thiserror::Error;

/// Why a program is not rewritten.
#[derive(Clone, Copy, Debug, PartialEq, Eq, Drop, Error)]
pub enum XformError {
    /// There are more events than may be replayed.
    #[error("more than {limit} events")]
    TooManyEvents { limit: u32 },
    /// There was not enough memory.
    #[error("out of memory")]
    Memory,
}

impl From<Memory> for XformError {
    ghost from_gives = { λ _ e. e ≡ errors.Memory };

    fn from(_e: Memory) -> XformError {
        XformError::Memory
    }
}
