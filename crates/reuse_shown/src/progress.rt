//! How far long work is, for a terminal.
ghost use Rattle.std.specs.Prelude.{◌≡◌, min};

use reuse_store::{StoreRequest, Watcher};
use std::alloc::Global;
use std::cell::Cell;
use std::io::{self, Write};
use std::rt::Clock;
use std::time::{Duration, Instant};

/// Work that takes less time, in thousandths of a second, is not reported.
const LEAST: u64 = 1_000;

/// The time between two lines.
const STEP: u64 = 100;

/// A look at one path and its neighbour is a listing, too, of at most so many files.
const LOOKED_AT: usize = 2;

/// How many files were read and written so far, and how many there are, if the call lists them.
/// Else how often a file was read or written, since one may be read twice. One line on standard
/// error says so. The next one takes its place, and it is cleared before anything else is printed.
#[derive(Drop)]
pub struct Progress<R: Clock + Eprint + Drop> {
    rt: R,
    /// When the work began, where its progress is to be reported.
    start: Option<Instant>,
    read: Cell<u64>,
    written: Cell<u64>,
    /// How many files the largest listing had so far.
    listed: Cell<usize>,
    /// How long the work took so far when the line was written that stands there.
    reported: Cell<Option<Duration>>,
}

impl<R: Clock + Eprint + Drop> Progress<R> {
    /// Work that begins now.
    pub fn new(rt: R, is_reported: bool) -> Progress<R> {
        let start = if is_reported {
            Instant::now(&rt).ok()
        } else {
            None
        };
        Progress {
            rt,
            start,
            read: Cell::new(0),
            written: Cell::new(0),
            listed: Cell::new(0),
            reported: Cell::new(None),
        }
    }

    fn count(&self, files: &Cell<u64>) {
        if let Some(start) = self.start {
            files.set(files.get().saturating_add(1));
            if let Ok(elapsed) = start.elapsed(&self.rt) {
                self.report(elapsed);
            }
        }
    }

    fn report(&self, elapsed: Duration) {
        let last = self.reported.get().unwrap_or(Duration::ZERO);
        let since = elapsed.saturating_sub(last);
        if elapsed < Duration::from_millis(LEAST) || since < Duration::from_millis(STEP) {
            return;
        }
        let (read, written) = (self.read.get(), self.written.get());
        let listed = self.listed.get();
        let _ = if listed > LOOKED_AT {
            let (read, written) = (count_of(read, listed), count_of(written, listed));
            eprint!(&self.rt; "\r{read} files read of {listed} listed, {written} written\x1b[K")
        } else {
            eprint!(&self.rt; "\r{read} reads, {written} writes\x1b[K")
        };
        self.reported.set(Some(elapsed));
    }

    /// Clears the line.
    pub fn clear(&self) {
        if self.reported.take().is_some() {
            let _ = eprint!(&self.rt; "\r\x1b[K");
        }
    }
}

/// How many of the listed files are reported as read or written. Some are read twice, and the
/// journal's are none of them.
fn count_of(calls: u64, listed: usize) -> u64
    ensures { result ≡ min calls listed }
{
    calls.min(listed as u64)
}

/// A writer before whose lines the line of progress is cleared.
#[derive(Drop)]
pub struct ClearedOutput<'a, R: Clock + Eprint + Drop, W: Write + Drop> {
    progress: &'a Progress<R>,
    pub(crate) inner: W,
}

impl<'a, R: Clock + Eprint + Drop, W: Write + Drop> ClearedOutput<'a, R, W> {
    pub fn new(progress: &'a Progress<R>, inner: W) -> ClearedOutput<'a, R, W>
        ensures { result.inner ≡ inner }
    {
        ClearedOutput { progress, inner }
    }
}

impl<R: Clock + Eprint + Drop, W: Write + Drop> Write for ClearedOutput<'_, R, W> {
    ghost contents = { λ output. W.contents output.inner };

    fn write(&mut self, buf: &[u8]) -> io::Result<usize> {
        self.progress.clear();
        self.inner.write(buf)
    }

    fn write_all(&mut self, buf: &[u8]) -> io::Result<()> {
        self.progress.clear();
        self.inner.write_all(buf)
    }

    fn flush(&mut self) -> io::Result<()> {
        self.inner.flush()
    }
}

impl<R: Clock + Eprint + Drop> Watcher for Progress<R> {
    fn before(&self, _: Global, asked: StoreRequest) {
        match asked {
            StoreRequest::List | StoreRequest::Sync => {}
            StoreRequest::Read => self.count(&self.read),
            StoreRequest::Write | StoreRequest::Remove => self.count(&self.written),
        }
    }

    fn after(&self, _: Global, listed: Option<usize>) {
        let most = self.listed.get();
        self.listed.set(listed.unwrap_or(0).max(most));
    }
}
