//! Short files that a call has read, with what the system reported of them then. A call that
//! changes files reads each one twice: when it plans, and just before it writes. The second reading
//! is saved if the system still reports the same of the file: which file it is, how long it is, and
//! when it was changed last. Tested by tests/remembered_files.sh and tests/exchanged_files.sh.
//!
//! A file that was changed right before the call isn't remembered: the stamp of a further change
//! could be the same, since the system's stamps go by ticks.
ghost use Rattle.std.specs.Prelude.{◌≡◌, [], IfSome, IsSome, IsTrue, None, false};
ghost use Rattle.reuse_folder.specs.RememberedFiles.{IsRemembered, IsRememberedNow};

use reuse_change::PathText;
use reuse_system::place::{FileStatus, FileVersion};
use reuse_text::Bytes;
use std::alloc::Global;
use std::time::Duration;

/// How many bytes are remembered at most, in all.
const MOST_BYTES: usize = 64 * 1_024 * 1_024;

/// The longest file that is remembered: a longer one takes so long to write that reading it again
/// costs little.
const LONGEST: usize = 64 * 1_024;

/// A file that was read, as it was then.
#[derive(Drop)]
struct RememberedFile {
    path: PathText,
    status: FileStatus,
    /// Its bytes, until they are asked for.
    bytes: Option<Bytes>,
}

/// The files that are remembered.
#[derive(Drop)]
pub struct Remembered {
    /// When the call began, since 1970. Nothing is remembered where that isn't known.
    since: Option<Duration>,
    /// In the order of their paths.
    files: Vec<RememberedFile>,
    /// How many bytes they have in all.
    bytes: usize,
    /// The one that is likely to be asked for next.
    next: usize,
}

impl Remembered {
    /// No file, and none that is read will be remembered.
    pub fn nothing(alloc: Global) -> Remembered
        ensures files { result.files.items ≡ [] }
        ensures since { result.since ≡ None }
    {
        Remembered {
            since: None,
            files: Vec::new(alloc),
            bytes: 0,
            next: 0,
        }
    }

    /// Files that are read from now on are remembered, for a call that began at this time since
    /// 1970.
    pub fn begin(&mut self, since: Option<Duration>)
        ensures { self.new ≡ record self.old { since = since } }
    {
        self.since = since;
    }

    /// Whether a file of this path, version and length is to be remembered.
    fn takes(&self, path: &PathText, version: &FileVersion, len: usize) -> bool
        ensures { IsTrue result → IsSome self.now.since }
    {
        let is_settled = match self.since {
            Some(since) => version.is_settled_at(since),
            None => false,
        };
        let is_next = match self.files.last() {
            Some(last) => last.path < *path,
            None => true,
        };
        is_settled && is_next && len <= LONGEST && self.bytes.saturating_add(len) <= MOST_BYTES
    }

    /// A file was read that had this status before: says whether it is remembered. If memory is
    /// short it isn't.
    pub fn note(
        &mut self,
        alloc: Global,
        path: &PathText,
        status: &FileStatus,
        bytes: &Bytes,
    ) -> bool
        ensures remembered { IsTrue result
            → IsRememberedNow self.old self.new path.now status.now bytes.now }
        ensures same { result ≡ false → self.new.files.items ≡ self.old.files.items }
        ensures since { self.new.since ≡ self.old.since }
    {
        let len = bytes.len();
        let version = status.version();
        if !self.takes(path, &version, len) {
            return false;
        }
        let (Ok(path), Ok(bytes)) = (path.try_clone(alloc), bytes.try_clone(alloc)) else {
            return false;
        };
        let file = RememberedFile {
            path,
            status: *status,
            bytes: Some(bytes),
        };
        if self.files.push(file).is_err() {
            return false;
        }
        self.bytes = self.bytes.saturating_add(len);
        true
    }

    /// Where the file of this path stands, if it is remembered. Files are mostly asked for in the
    /// order in which they were read.
    fn place_of(&self, path: &PathText) -> Option<usize> {
        match self.files.get(self.next) {
            Some(file) if file.path == *path => Some(self.next),
            _ => self.files.binary_search_by(|file| file.path.cmp(path)).ok(),
        }
    }

    /// The bytes of the file, if it is remembered and is still as it was. It isn't remembered any
    /// more, however it is.
    pub fn take(&mut self, path: &PathText, status: &FileStatus) -> Option<Bytes>
        ensures none { self.old.files.items ≡ [] → result ≡ None }
        // They are those of a file of the very version that the system reports now.
        ensures version { IfSome result (IsRemembered self.old status.now.version) }
    {
        if self.files.is_empty() {
            return None;
        }
        let at = self.place_of(path)?;
        self.next = at.saturating_add(1);
        let file = self.files.get_mut(at)?;
        let is_same = file.status.is_same(status);
        let bytes = file.bytes.take()?;
        self.bytes = self.bytes.saturating_sub(bytes.len());
        if is_same { Some(bytes) } else { None }
    }
}
