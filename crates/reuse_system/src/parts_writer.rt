//! Writing the parts of a file.
ghost use Rattle.std.specs.Prelude.{◌≡◌, MatchResult};
ghost use Rattle.reuse_change.specs.Parts.{joined};
ghost use Rattle.reuse_system.specs.SystemLaws.{IsAlikeButFile, IsAppended};
ghost use Rattle.reuse_system.specs.TempFiles.{key_of};

use crate::system::{System, TempFile};
use reuse_change::Pieces;
use std::io;

/// Parts that are no longer than this together are joined, and go out by one call of the system. A
/// copy of more takes longer than another call. (The library's vectored write would need no copy,
/// but it links calls on sockets, for which the program has no handle.)
const MOST_JOINED: usize = 32_768;

/// Writes the parts, one after the other: those of a short file by one call of the system, for
/// which they are joined in `room`. What the file has then is what it had, and the parts joined.
pub fn write_parts<S: System>(
    system: &mut S,
    temp_file: &TempFile,
    room: &mut Vec<u8>,
    parts: Pieces,
) -> io::Result<()>
    ensures appended { MatchResult result
        (λ _. IsAppended (key_of temp_file.now) (joined parts.entry) (S.holds system.old) (S.holds system.new))
        (λ _. IsAlikeButFile (key_of temp_file.now) (S.holds system.old) (S.holds system.new)) }
    ensures still { S.folders system.new ≡ S.folders system.old }
    ensures earlier { S.honest system.new → S.honest system.old }
    ensures changes { S.changes system.new ≡ S.changes system.old }
    ensures no_sync { S.synced system.new ≡ S.synced system.old }
{
    let Pieces {
        front,
        middle,
        back,
    } = parts;
    let length = front.len().saturating_add(middle.len());
    if length.saturating_add(back.len()) > MOST_JOINED {
        system.append(temp_file, front)?;
        system.append(temp_file, middle)?;
        return system.append(temp_file, back);
    }
    room.clear();
    room.extend_from_slice(front)?;
    room.extend_from_slice(middle)?;
    room.extend_from_slice(back)?;
    system.append(temp_file, room)
}
