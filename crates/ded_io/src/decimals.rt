//! Numbers in decimal on an output.

ghost use Rattle.std.specs.Prelude.{decimal};
ghost use Rattle.std.specs.Fmt.{signed_decimal};
ghost use Rattle.ded_io.specs.Counts.{HasCause};
ghost use Rattle.ded_io.specs.Written.{Wrote};

use crate::{Sink, SinkError};
use itoa::Buffer;

/// Appends the digits of a number, in one put. It takes no memory.
pub fn put_number<K: Sink>(n: u64, out: &mut K) -> Result<(), SinkError>
    ensures bytes { Wrote result (K.told out.old) (K.told out.new) (decimal n) }
    ensures cause { HasCause (K.faults out.old) (K.faults out.new) result }
{
    let mut buffer = Buffer::new();
    out.put(buffer.format(n).as_bytes())
}

/// Appends the digits of a number, with `-` before those of a negative one, in one put. It takes no memory.
pub fn put_signed<K: Sink>(n: i32, out: &mut K) -> Result<(), SinkError>
    ensures bytes { Wrote result (K.told out.old) (K.told out.new) (signed_decimal n) }
    ensures cause { HasCause (K.faults out.old) (K.faults out.new) result }
{
    let mut buffer = Buffer::new();
    out.put(buffer.format(n).as_bytes())
}
