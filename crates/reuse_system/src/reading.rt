//! Reading what may be longer than is asked for.
ghost use Rattle.std.specs.Prelude.{◌≡◌, ◌≢◌, IfErr, IfOk, IfSome, take};
ghost use Rattle.std.specs.IoError.{error_kind};
ghost use Rattle.std.specs.declared.io.ErrorKind.TheVariants.{Interrupted};

use std::alloc::Global;
use std::io::{self, Read};

/// The bytes that a reader gives, as far as this many: all that it has, if those are no more.
pub fn read_front<R: Read + Drop>(reader: R, alloc: Global, most: u64) -> io::Result<Vec<u8>>
    ensures front { IfOk result (λ bytes. IfSome (R.remaining reader) (λ had. bytes.items ≡ take most had)) }
    ensures retried { IfErr result (λ error. error_kind error ≢ Interrupted) }
{
    let mut bytes = Vec::new(alloc);
    reader.take(most).read_to_end(&mut bytes)?;
    Ok(bytes)
}
