//! Reading a file that is open, by any reader.
ghost use Rattle.std.specs.Prelude.{◌≢◌, IfErr, IfOk, IfSome};
ghost use Rattle.std.specs.IoError.{error_kind};
ghost use Rattle.reuse_system.specs.Readings.{IsReadingOf, IsWholeOf};
ghost use Rattle.reuse_system.specs.Within.{IsWithin};

use crate::fault::FolderFault;
use reuse_store::Reading;
use reuse_text::Bytes;
use std::alloc::Global;
use std::io::{self, ErrorKind, Read};

/// The bytes of a regular file that was of this length, where they are at most `limit`.
pub fn read_file<R: Read + Drop>(
    file: R,
    alloc: Global,
    len: u64,
    limit: usize,
) -> Result<Reading, FolderFault>
    ensures within { IfOk result (IsWithin limit) }
    ensures whole { IfOk result (λ reading. IfSome (R.remaining file) (λ had. IsReadingOf len limit had reading)) }
{
    let most = (limit as u64).saturating_add(1);
    let bytes = read_whole(file.take(most), alloc, len as usize)?;
    if bytes.len() > limit {
        return Ok(Reading::TooLong);
    }
    Ok(Reading::Found(Bytes::from_vec(bytes)))
}

/// The bytes of a file that is said to have this length. It is asked for one byte more: if it gives
/// as many as were said, it ends there, as a regular file gives fewer than it is asked for only at
/// its end. Else it is read on, since it may be longer. So of any reader that has no more than was
/// said all is read, however it is given, and what is read is always its front.
fn read_whole<R: Read + Drop>(mut file: R, alloc: Global, len: usize) -> io::Result<Vec<u8>>
    ensures whole { IfOk result (λ bytes. IfSome (R.remaining file) (λ had. IsWholeOf len had bytes.items)) }
    ensures retried { IfErr result (λ error. error_kind error ≢ ErrorKind.Interrupted) }
{
    let mut bytes = vec![in alloc; 0; len.saturating_add(1)]?;
    match file.read(&mut bytes) {
        Ok(count) if count == len => {
            bytes.truncate(count);
            return Ok(bytes);
        }
        Ok(count) => bytes.truncate(count),
        Err(error) if error.kind() == ErrorKind::Interrupted => bytes.clear(),
        Err(error) => return Err(error),
    }
    file.read_to_end(&mut bytes)?;
    Ok(bytes)
}
