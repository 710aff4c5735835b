//! What is read of a folder beside a call: the step that is pending, whether a table was made that
//! says nothing, and the tree's own files of styles and of comments. It only reads. The program
//! and `diagnostics` call it. Tested by `tests/notes.sh`.
ghost use Rattle.std.specs.Prelude.{◌≡◌};
ghost use Rattle.reuse_store.specs.Asked.{OnlyReads};

use reuse_change::PathText;
use reuse_change::layout::HEAD;
use reuse_folder::HostStore;
use reuse_print::ready_left::OwnFiles;
use reuse_store::{Reading, Store};
use reuse_text::{Bytes, LONGEST_FILE};
use reuse_tree::{Head, decode_head};
use std::alloc::Global;
use std::fs::File;
use std::rt::Files;

const TABLE: &str = "REUSE.toml";

/// What each paragraph of the table begins with.
const TABLE_PARAGRAPH: &str = "[[annotations]]";

fn read<R: Files<File = File> + AllocGlobal + Clone + Drop>(
    alloc: Global,
    store: &mut HostStore<R>,
    path: &str,
) -> Option<Bytes>
    ensures reads { OnlyReads ⟦<HostStore<R> as Store>⟧ store.old store.new }
    ensures noted { store.new.folder.unsynced ≡ store.old.folder.unsynced }
{
    let path = PathText::new(alloc, path).ok()?;
    match store.read(alloc, &path, LONGEST_FILE) {
        Ok(Reading::Found(bytes)) => Some(bytes),
        _ => None,
    }
}

fn head_of<R: Files<File = File> + AllocGlobal + Clone + Drop>(
    alloc: Global,
    store: &mut HostStore<R>,
) -> Option<Head>
    ensures reads { OnlyReads ⟦<HostStore<R> as Store>⟧ store.old store.new }
    ensures noted { store.new.folder.unsynced ≡ store.old.folder.unsynced }
{
    let text = read(alloc, store, HEAD)?;
    decode_head(alloc, text.as_slice()).ok()
}

/// The step that is pending.
pub fn pending_step<R: Files<File = File> + AllocGlobal + Clone + Drop>(
    alloc: Global,
    store: &mut HostStore<R>,
) -> Option<u32>
    ensures reads { OnlyReads ⟦<HostStore<R> as Store>⟧ store.old store.new }
    ensures noted { store.new.folder.unsynced ≡ store.old.folder.unsynced }
{
    let pending = head_of(alloc, store)?.pending?;
    Some(pending.entry)
}

/// Whether there is a table, and it has no paragraph.
pub fn is_table_empty<R: Files<File = File> + AllocGlobal + Clone + Drop>(
    alloc: Global,
    store: &mut HostStore<R>,
) -> bool
    ensures reads { OnlyReads ⟦<HostStore<R> as Store>⟧ store.old store.new }
    ensures noted { store.new.folder.unsynced ≡ store.old.folder.unsynced }
{
    match read(alloc, store, TABLE) {
        Some(bytes) => match str::from_utf8(bytes.as_slice()) {
            Ok(text) => !text.contains(TABLE_PARAGRAPH),
            Err(_) => false,
        },
        None => false,
    }
}

/// The tree's own files of styles and of comments, where they can be read.
pub fn own_files<R: Files<File = File> + AllocGlobal + Clone + Drop>(
    alloc: Global,
    store: &mut HostStore<R>,
) -> OwnFiles
    ensures reads { OnlyReads ⟦<HostStore<R> as Store>⟧ store.old store.new }
    ensures noted { store.new.folder.unsynced ≡ store.old.folder.unsynced }
{
    let styles = read(alloc, store, ".reuse/styles.toml");
    let comments = read(alloc, store, ".reuse/comments.toml");
    OwnFiles { styles, comments }
}
