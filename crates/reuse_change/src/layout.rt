//! Where the journal of a tree lies, what its files are called, and how much it holds: each said
//! here, once. Crates above ask here, and their definitions ask `specs/Layout.antt`.

/// The folder that the journal's folder lies in.
pub const ABOVE_JOURNAL: &str = ".reuse";

/// The name of the journal's folder there.
pub const JOURNAL_NAME: &str = "undo";

/// The folder of the journal.
pub const JOURNAL: &str = ".reuse/undo";

/// The head, below the root.
pub const HEAD: &str = ".reuse/undo/head.json";

/// The name of the head in the journal's folder.
pub const HEAD_NAME: &str = "head.json";

/// What stands before the number of an entry in the path of its file, which has six digits.
pub const BEFORE_NUMBER: &str = ".reuse/undo/";

/// What stands behind that number.
pub const BEHIND_NUMBER: &str = ".json";

/// The name of the first entry's file in the journal's folder.
pub const FIRST_NAME: &str = "000001.json";

/// The name there of the file that is written before it is given its own. Where several are written
/// at once, the others have a dot and a number behind it.
pub const NEW: &str = "new";

/// How the names of those others begin.
pub const NEW_NUMBERED: &[u8] = b"new.";

/// How the name of that file begins where it is written beside the one that it is to be, since the
/// journal's folder lies on another device. A dot and that folder's number stand behind it.
pub const NEW_BESIDE: &str = ".reuse-undo-new";

/// The same with the dot.
pub const NEW_BESIDE_NUMBERED: &[u8] = b".reuse-undo-new.";

/// The most changes that an entry has.
pub const MOST_CHANGES: usize = 100_000;

/// The largest entry size, and the longest text of an entry, in bytes.
pub const LARGEST_ENTRY: usize = 268_435_456;

/// The most entries that a head lists: those done, and those undone beside them.
pub const MOST_LISTED: usize = 4_096;

/// The last number that an entry can have.
pub const LAST_NUMBER: u32 = 999_999;

/// The latest format of the journal's texts.
pub const LATEST_FORMAT: u32 = 2;
