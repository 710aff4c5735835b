//! Laws of the definitions: what is written for a good value is good, and a text stands for one
//! value at most. With what decoding ensures, a value that was encoded is decoded again.
ghost use Rattle.std.specs.Prelude.{◌≡◌, ◌≤◌, ◌+◌, ◌*◌, List, ℕ, length};
ghost use Rattle.reuse_tree.specs.Head.{head_text, listed, IsGoodHead, IsSoundHead};
ghost use Rattle.reuse_change.specs.Entry.{entry_size};
ghost use Rattle.reuse_json.specs.EntryText.{entry_text, IsGoodEntry, IsSoundEntry};
ghost use Rattle.reuse_tree.specs.declared.journal.head.Head.{Head};
ghost use Rattle.reuse_json.specs.declared.entry.Entry.{Entry};

/// The text of a sound head is good, and stands for that head alone.
pub fn written_heads_are_good()
    ensures good { (h : Head) → IsSoundHead h → IsGoodHead (head_text h) h }
    ensures bound { (h : Head) → IsSoundHead h → length (head_text h) ≤ 128 + 7 * length (listed h) }
    ensures one { (text : List ℕ) (a b : Head) → IsGoodHead text a → IsGoodHead text b → a ≡ b }
{}

/// The text of a sound entry is good, and stands for that entry alone.
pub fn written_entries_are_good()
    ensures good { (e : Entry) → IsSoundEntry e → IsGoodEntry (entry_text e) e }
    ensures bound { (e : Entry) → IsSoundEntry e → length (entry_text e) ≤ entry_size e.changes }
    ensures one { (text : List ℕ) (a b : Entry) → IsGoodEntry text a → IsGoodEntry text b → a ≡ b }
{}
