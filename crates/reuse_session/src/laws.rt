//! Laws of the definitions that the contracts of a session cite: each function has no body, and its
//! contract is the law. They say in other words what an outcome, an opening and the model are, so
//! that a reader need not trust the definitions. Nobody calls them.
ghost use Rattle.std.specs.Prelude.{◌≡◌, ◌≢◌, ◌↔◌, ◌⊎◌, [], List, map, ℕ, nat_eq, true, false, Ok, None, ◌≤◌, ◌++◌};
ghost use Rattle.std.specs.Prelude.{length, Bool, Option, Some, Err, Result};
ghost use Rattle.std.specs.Ordering.{nat_cmp};
ghost use Rattle.std.specs.Cmp.Lexicographic.{slice_cmp};
ghost use Rattle.std.specs.List.{All, Contains, starts_with};
ghost use Rattle.std.specs.List.Sorted.{IsPermutation, IsStrictlySortedBy};
ghost use Rattle.std.specs.FinMap.{get};
ghost use Rattle.reuse_header.specs.declared.annotation.How.{How};
ghost use Rattle.reuse_words.specs.Texts.{AreTexts};
ghost use Rattle.reuse_notice.specs.Plain.{ArePlain, AreUtf8};
ghost use Rattle.reuse_change.specs.Files.{Files, AreFiles, Clashes};
ghost use Rattle.reuse_ready.specs.declared.additions.StyleAdditions.{StyleAdditions};
ghost use Rattle.reuse_change.specs.Change.{inverse_of};
ghost use Rattle.reuse_amend.specs.declared.amendments.Amendments.{Amendments};
ghost use Rattle.reuse_change.specs.declared.change.Change.{Change};
ghost use Rattle.reuse_text.specs.declared.TheConstants.{LONGEST_FILE};
ghost use Rattle.reuse_plan.specs.Accepted.{CanAmend, CanAnnotate, CanConvert, CanDownload};
ghost use Rattle.reuse_plan.specs.Amended.{Amends, KeepsPaths};
ghost use Rattle.reuse_plan.specs.Annotated.{Annotates, IsSkippedAt, StaysOrIsText, pair_at};
ghost use Rattle.reuse_plan.specs.Chosen.{IsNamed, StandsBeneath, IsAskedFor, IsAskedToAmend};
ghost use Rattle.reuse_command.specs.Command.{HoldsEntry, paths_among};
ghost use Rattle.reuse_edit.specs.Edit.{Edit};
ghost use Rattle.reuse_edit.specs.EditBytes.{TakesAndWrites};
ghost use Rattle.reuse_change.specs.Entry.{touches, CanBeMade, IsEntry, IsFirstStuck, LeadsAll, LeadsBy, AreAllSealed};
ghost use Rattle.reuse_session.specs.session.Fresh.{IsFresh, first_state};
ghost use Rattle.reuse_change.specs.declared.change.Change.TheVariants.{Splice};
ghost use Rattle.reuse_change.specs.declared.digest.Seal.{Seal};
ghost use Rattle.reuse_plan.specs.PathOutcomes.{first_refusal, path_outcomes_of, ArePathOutcomesOf};
ghost use Rattle.reuse_journal.specs.InTurn.{LeadsInTurn};
ghost use Rattle.reuse_journal.specs.Journal.{Recorded, State, Replays};
ghost use Rattle.reuse_journal.specs.JournalFiles.{IsFree};
ghost use Rattle.reuse_session.specs.session.Machine.{IsUnbroken, Snapshots, redone, undone};
ghost use Rattle.reuse_session.specs.session.Model.{AreOf, Gives, IsByTrees, TakesFromTheEnds};
ghost use Rattle.reuse_session.specs.session.Forgetting.{alone, IsWithoutOldest, numbers_of, snapshots_besides};
ghost use Rattle.reuse_journal.specs.Opening.{IsFirstBad, IsStuckAt, CanOpenOn};
ghost use Rattle.reuse_plan.specs.Outcome.{edits_of, outcome_of};
ghost use Rattle.reuse_session.specs.session.Previews.{PreviewsReplay};
ghost use Rattle.reuse_plan.specs.Reverting.{taken_back};
ghost use Rattle.reuse_journal.specs.Seals.{tree_for, IsAsLeft, IsDistinguished, IsUntouched};
ghost use Rattle.reuse_session.specs.session.Session.{IsRun, Runs};
ghost use Rattle.reuse_session.specs.session.Stops.{SimulatesInFiles};
ghost use Rattle.reuse_plan.specs.StylesAdded.{AddsStyles};
ghost use Rattle.reuse_plan.specs.TablePut.{PutsTable};
ghost use Rattle.reuse_plan.specs.TextsPut.{PutsTexts};
ghost use Rattle.reuse_change.specs.Tree.{changed_paths, undo_folder_of};
ghost use Rattle.reuse_plan.specs.TreeStyles.{styles_in};
ghost use Rattle.reuse_style.specs.Kinds.{OwnKinds};
ghost use Rattle.reuse_plan.specs.Selected.{amended_paths, is_chosen, selected_paths};
ghost use Rattle.reuse_command.specs.declared.command.Command.{Command};
ghost use Rattle.reuse_change.specs.Listing.{is_among};
ghost use Rattle.reuse_command.specs.declared.command.Command.TheVariants.{Amend, Annotate, ConvertDep5, Download};
ghost use Rattle.reuse_command.specs.declared.command.Command.TheVariants.{AddStyles, Revert};
ghost use Rattle.reuse_command.specs.declared.command.FileAmendment.{FileAmendment};
ghost use Rattle.reuse_command.specs.declared.command.FileAmendment.TheVariants.{InHeader, Remove};
ghost use Rattle.reuse_command.specs.declared.command.HeaderRemoval.TheVariants.{Texts};
ghost use Rattle.reuse_command.specs.declared.command.HeaderAdditions.{HeaderAdditions};
ghost use Rattle.reuse_command.specs.declared.command.Place.{Place};
ghost use Rattle.reuse_command.specs.declared.command.Scope.{Scope};
ghost use Rattle.reuse_change.specs.declared.direction.Direction.{Direction};
ghost use Rattle.reuse_change.specs.declared.direction.Direction.TheVariants.{Backward};
ghost use Rattle.reuse_command.specs.declared.path_outcome.PathOutcome.{PathOutcome};
ghost use Rattle.reuse_header.specs.declared.harm.Harm.{Harm};
ghost use Rattle.reuse_command.specs.declared.path_outcome.PathOutcome.TheVariants.{Changes, Skipped, Unchanged};
ghost use Rattle.reuse_command.specs.declared.licence.LicenceText.{LicenceText};
ghost use Rattle.reuse_command.specs.declared.reply.Refusal.{Refusal};
ghost use Rattle.reuse_command.specs.declared.reply.Refusal.TheVariants.{Moved};
ghost use Rattle.reuse_command.specs.declared.reply.Response.{Response};
ghost use Rattle.reuse_command.specs.declared.request.Call.TheVariants as calls;
ghost use Rattle.reuse_command.specs.declared.request.Request.{Request};
ghost use Rattle.reuse_command.specs.declared.request.Request.TheVariants as requests;

use reuse_header::amending_keeps_other_bytes;
use reuse_words::{added_texts_make_texts, adding_texts_keeps_other_bytes};

/// Any files open in one way: at most one path is the first at fault, at most one is where the
/// pending step is stuck, at most one committed state can be opened on, and no two of these three
/// are there.
pub fn files_open_in_one_way()
    ensures bad { (files : Files) (path other : List ℕ) → IsFirstBad files path → IsFirstBad files other
        → path ≡ other }
    ensures moved { (files : Files) (path other : List ℕ) → IsStuckAt files path → IsStuckAt files other
        → path ≡ other }
    ensures opened { (files : Files) (held other : State) → CanOpenOn files held → CanOpenOn files other
        → held ≡ other }
    ensures bad_or_moved { (files : Files) (path other : List ℕ) → IsFirstBad files path → ¬ (IsStuckAt files other) }
    ensures bad_or_opened { (files : Files) (path : List ℕ) (held : State) → IsFirstBad files path
        → ¬ (CanOpenOn files held) }
    ensures moved_or_opened { (files : Files) (path : List ℕ) (held : State) → IsStuckAt files path
        → ¬ (CanOpenOn files held) }
{}

/// An entry leads from one tree to another exactly where its changes do, one after the other, and
/// back exactly where their inverses do, one after the other in any order.
pub fn entries_lead_in_turn()
    ensures forth { (changes : List Change) (before after : Files) → IsEntry changes → LeadsAll changes before after
        ↔ LeadsInTurn changes before after }
    ensures back { (changes others : List Change) (before after : Files) → IsEntry changes
        → IsPermutation changes others → LeadsBy Backward changes before after
        ↔ LeadsInTurn (map inverse_of others) before after }
{}

/// A download that isn't refused puts the text of each id at `LICENSES/ID.txt`, where no file was,
/// and changes no other path. A run that isn't refused leaves that. It isn't refused exactly where
/// each id's text can be put, and one entry holds them all.
pub fn downloads_put_each_text()
    ensures accepted { (ids : List (List ℕ)) (texts : List LicenceText) (tree : Files)
        → ((after : Files) × (outcome_of (Download ids texts) tree ≡ Ok after)) ↔ CanDownload ids texts tree }
    ensures made { (ids : List (List ℕ)) (texts : List LicenceText) (tree after : Files)
        → outcome_of (Download ids texts) tree ≡ Ok after → PutsTexts ids texts tree after }
    ensures left { (ids : List (List ℕ)) (texts : List LicenceText) (when : ℕ) (old new : State) (reply : Response)
        → Runs (Download ids texts) when old (Ok reply) new
        → PutsTexts ids texts old.tree new.tree }
{}

/// What annotate does on a tree, in other words. Where it isn't refused, each file that is gone
/// through is commented: it holds what the header rules make of its own bytes in its style; or
/// accompanied: its neighbour holds what they make of the neighbour's own bytes, or of none; or
/// skipped, where that is asked for. Every byte outside the old header block stays, and so does
/// every other path. These words leave one tree. A run that isn't refused leaves it: `Runs` is what
/// `Session::run` promises. No file goes, and each that changes is text then. That is said of
/// additions that are plain and UTF-8, as `Additions::new` makes them, and of texts whose lines are
/// text, as `HeaderText::read` makes them. It isn't refused exactly where the tree's own styles are
/// good, the root is given only where folders are gone through, each path that is gone through can be
/// annotated by itself, and one entry holds them all.
pub fn annotations_change_chosen_places_alone()
    ensures accepted { (places : List Place) (additions : HeaderAdditions) (how : How) (scope : Scope) (tree : Files)
        → ((after : Files) × (outcome_of (Annotate places additions how scope) tree ≡ Ok after))
        ↔ CanAnnotate places additions how scope tree }
    ensures made { (places : List Place) (additions : HeaderAdditions) (how : How) (scope : Scope) (tree after : Files)
        → outcome_of (Annotate places additions how scope) tree ≡ Ok after
        → Annotates places additions how scope tree after }
    ensures one { (places : List Place) (additions : HeaderAdditions) (how : How) (scope : Scope)
        (before after other : Files) → Annotates places additions how scope before after
        → Annotates places additions how scope before other → after ≡ other }
    ensures left { (places : List Place) (additions : HeaderAdditions) (how : How) (scope : Scope) (when : ℕ)
        (old new : State) (reply : Response) → Runs (Annotate places additions how scope) when old (Ok reply) new
        → Annotates places additions how scope old.tree new.tree }
    ensures texts { (places : List Place) (additions : HeaderAdditions) (how : How) (scope : Scope)
        (before after : Files) → Annotates places additions how scope before after
        → ArePlain additions.tags → AreUtf8 additions.tags → AreTexts additions.texts
        → (path : List ℕ) → StaysOrIsText before after path }
{
    adding_texts_keeps_other_bytes();
    added_texts_make_texts();
}

/// What amend does on a tree, in other words. Where it isn't refused, each file that is gone
/// through has a neighbour, which holds what the rules leave of its own bytes; or, where it has
/// none, it is text of some style and holds what the rules make of its own bytes in that style; or
/// it is neither, and stays. Every byte outside the header block stays, but for an empty line behind
/// a block that goes with its header. A block that is removed goes exactly where nothing in it is
/// without a tag; else a comment of that, which has no tag, takes its place. Where each tag is
/// amended, it is text, whatever its style, and every byte outside of the tags' values stays. Each
/// `REUSE.toml` that is gone through is read as the table that was there with the values of the two
/// keys amended, and differs in strings and commas alone. Every other path stays as it is. These
/// words leave one tree. No file is made. Where something is taken out of a header, a neighbour of a
/// file that is gone through goes exactly where nothing but its byte order mark would be left of
/// more, and no other file goes. To take no texts out is to amend the values in headers alone. A run
/// that isn't refused leaves that tree. It isn't refused exactly where the tree's own styles are
/// good, the root is given only where folders are gone through, each path that is gone through can
/// be amended by itself, and one entry holds them all.
pub fn amendments_change_selected_places_alone()
    ensures accepted { (places : List Place) (amendment : FileAmendment) (scope : Scope) (tree : Files)
        → ((after : Files) × (outcome_of (Amend places amendment scope) tree ≡ Ok after))
        ↔ CanAmend places amendment scope tree }
    ensures made { (places : List Place) (amendment : FileAmendment) (scope : Scope) (tree after : Files)
        → outcome_of (Amend places amendment scope) tree ≡ Ok after → Amends places amendment scope tree after }
    ensures one { (places : List Place) (amendment : FileAmendment) (scope : Scope) (before after other : Files)
        → Amends places amendment scope before after
        → Amends places amendment scope before other → after ≡ other }
    ensures files { (places : List Place) (amendment : FileAmendment) (scope : Scope) (before after : Files)
        → Amends places amendment scope before after
        → KeepsPaths amendment (amended_paths scope places before) before after }
    ensures no_texts { (places : List Place) (values : Amendments) (scope : Scope) (before after : Files)
        → Amends places (Remove values (Texts [])) scope before after
        → Amends places (InHeader values) scope before after }
    ensures left { (places : List Place) (amendment : FileAmendment) (scope : Scope) (when : ℕ) (old new : State)
        (reply : Response) → Runs (Amend places amendment scope) when old (Ok reply) new
        → Amends places amendment scope old.tree new.tree }
{
    amending_keeps_other_bytes();
}

/// Where a conversion isn't refused, `.reuse/dep5` was there and is gone, `REUSE.toml` wasn't and
/// holds the text that the dep5 is converted to, and every other path holds what it held. A run
/// that isn't refused leaves that. It isn't refused exactly where the dep5 is there and can be
/// converted, and the `REUSE.toml` can be put.
pub fn conversions_put_a_table()
    ensures accepted { (tree : Files) → ((after : Files) × (outcome_of ConvertDep5 tree ≡ Ok after)) ↔ CanConvert tree }
    ensures made { (tree after : Files) → outcome_of ConvertDep5 tree ≡ Ok after → PutsTable tree after }
    ensures left { (when : ℕ) (old new : State) (reply : Response) → Runs ConvertDep5 when old (Ok reply) new
        → PutsTable old.tree new.tree }
{}

/// Where an addition of styles isn't refused, the tree's own styles were good and are, and each name
/// that is added has its style there, unless it had one. What stood in the two files stands in
/// front there, and every other path holds what it held. A run that isn't refused leaves that.
pub fn additions_of_styles_keep_what_is_there()
    ensures made { (additions : StyleAdditions) (tree after : Files) → outcome_of (AddStyles additions) tree ≡ Ok after
        → AddsStyles additions tree after }
    ensures left { (additions : StyleAdditions) (when : ℕ) (old new : State) (reply : Response)
        → Runs (AddStyles additions) when old (Ok reply) new → AddsStyles additions old.tree new.tree }
{}

/// What an edit of a command reports beside the file that it leaves, and by which an entry has its
/// size: a file comes that is what is written, or one goes that is what is removed, or between
/// bytes that stay what is removed gives way to what is written.
pub fn edits_record_what_they_take_and_write()
    ensures reported { (command : Command) (tree : Files) (edits : List Edit) → edits_of command tree ≡ Ok edits
        → All (TakesAndWrites tree) edits }
{}

/// A tree with nothing under `.reuse/undo/` holds the state of the model without earlier and
/// later trees, of which no number is used; and no path of a file of the journal is a folder there.
/// So what is proved of a driven session from such a state holds from such a tree. No step is
/// missing from its history.
pub fn trees_without_a_journal_hold_no_steps()
    ensures holds { (files : Files) → IsFresh files → SimulatesInFiles files (first_state files) }
    ensures unbroken { (tree : Files) → IsUnbroken (first_state tree) }
    ensures free { (files : Files) → IsFresh files → IsFree (undo_folder_of files) }
{}

/// The changed paths of two trees are those at which they differ, in byte order and none twice.
pub fn changed_paths_are_where_trees_differ()
    ensures paths { (before after : Files) (path : List ℕ) → Contains (changed_paths before after) path
        ↔ (get before path ≢ get after path) }
    ensures ascend { (before after : Files) → IsStrictlySortedBy (slice_cmp nat_cmp) (changed_paths before after) }
{}

/// What the seals of a step give. After a run, its step can be undone only where each file of the
/// step has the range, the length and the SHA-256 that the run left, and redone only where each has
/// those from before the run. So, where no two files that are compared have one SHA-256, exactly
/// where each is byte for byte as it was left, and no path that is made clashes.
pub fn seals_are_of_whole_files()
    ensures reported { (command : Command) (when : ℕ) (first second : State) (run : IsRun command when first second)
        (direction : Direction) (now : Files) → All (CanBeMade direction now) run.step.changes
        → All (IsAsLeft direction (tree_for direction first second) now) run.step.changes }
    ensures exact { (command : Command) (when : ℕ) (first second : State) (run : IsRun command when first second)
        (direction : Direction) (now : Files)
        → All (IsDistinguished (tree_for direction first second) now) run.step.changes
        → All (CanBeMade direction now) run.step.changes
        ↔ All (IsUntouched direction (tree_for direction first second) now) run.step.changes }
{}

/// If folders are gone through, a path is selected exactly where it is given and no folder, or is
/// a file beneath a folder that is given, and is covered, listed, where there is a list, and
/// matched by no glob that is excluded. Without a list and globs a command chooses all files that
/// it works on. If folders aren't gone through, a path is selected exactly where it is given. The
/// paths are selected in byte order, and none twice. Amend, and no other command, works on tables,
/// the files `REUSE.toml`, like on covered files.
pub fn selected_paths_are_asked_for()
    ensures asked { (scope : Scope) (places : List Place) (tree : Files) (path : List ℕ) → scope.recursive ≡ true
        → Contains (selected_paths scope places tree) path
        ↔ (IsNamed places tree path ⊎ (StandsBeneath places tree path × IsAskedFor scope path)) }
    ensures given { (scope : Scope) (places : List Place) (tree : Files) (path : List ℕ) → scope.recursive ≡ false
        → Contains (selected_paths scope places tree) path ↔ Contains (paths_among places) path }
    ensures ascend { (scope : Scope) (places : List Place) (tree : Files)
        → IsStrictlySortedBy (slice_cmp nat_cmp) (selected_paths scope places tree) }
    ensures all { (works_on : List ℕ → Bool) (scope : Scope) (path : List ℕ) → scope.listed ≡ None
        → scope.excluded ≡ [] → is_chosen works_on scope path ≡ works_on path }
    ensures amended { (scope : Scope) (places : List Place) (tree : Files) (path : List ℕ) → scope.recursive ≡ true
        → Contains (amended_paths scope places tree) path
        ↔ (IsNamed places tree path ⊎ (StandsBeneath places tree path × IsAskedToAmend scope path)) }
    ensures amended_given { (scope : Scope) (places : List Place) (tree : Files) (path : List ℕ)
        → scope.recursive ≡ false
        → Contains (amended_paths scope places tree) path ↔ Contains (paths_among places) path }
    ensures amended_ascend { (scope : Scope) (places : List Place) (tree : Files)
        → IsStrictlySortedBy (slice_cmp nat_cmp) (amended_paths scope places tree) }
{}

/// A revert of a sealed step that is the last leads back to the tree before it, as its undo does,
/// and a run that isn't refused leaves that tree. Of any step, and whatever else the tree is now:
/// where the revert isn't refused, a path that is as the step left it holds what it held before the
/// step; but where paths that have moved are left, one stays away while a folder or a file is in
/// its way. A path that a later step touched keeps what it holds, and a revert that leaves none of
/// its paths is refused where there is one. Of a file that was edited below what a step wrote, that
/// gives way to what was there before, whatever is below it, where that didn't begin with what was
/// written. And bytes that a step took away come back once.
pub fn reverts_take_steps_back()
    ensures undo { (changes : List Change) (skip_moved : Bool) (before after : Files) → IsEntry changes
        → AreAllSealed true changes → AreFiles before → LeadsAll changes before after
        → outcome_of (Revert changes [] skip_moved) after ≡ Ok before }
    ensures left { (changes : List Change) (skip_moved : Bool) (before : Files) (when : ℕ) (old new : State)
        (reply : Response) → IsEntry changes → AreAllSealed true changes → AreFiles before
        → LeadsAll changes before old.tree → Runs (Revert changes [] skip_moved) when old (Ok reply) new
        → new.tree ≡ before }
    ensures returned { (changes : List Change) (touched : List (List ℕ)) (skip_moved : Bool)
        (before after now reverted : Files) (path : List ℕ) → IsEntry changes → LeadsAll changes before after
        → outcome_of (Revert changes touched skip_moved) now ≡ Ok reverted → (skip_moved ≡ false)
        ⊎ (¬ (Clashes now path) × (is_among touched path ≡ false))
        → get now path ≡ get after path → get reverted path ≡ get before path }
    ensures later { (changes : List Change) (touched : List (List ℕ)) (skip_moved : Bool) (now reverted : Files)
        (path : List ℕ) → is_among touched path ≡ true
        → outcome_of (Revert changes touched skip_moved) now ≡ Ok reverted → get reverted path ≡ get now path }
    ensures unskipped { (changes : List Change) (touched : List (List ℕ)) (now reverted : Files) (path : List ℕ)
        → touches changes path ≡ true → is_among touched path ≡ true
        → outcome_of (Revert changes touched false) now ≢ Ok reverted }
    ensures below { (path front old new behind : List ℕ) (rest : ℕ) (seal : Option Seal)
        → starts_with nat_eq old new ≡ false → length (front ++ new ++ behind) ≤ LONGEST_FILE
        → length (front ++ old ++ behind) ≤ LONGEST_FILE
        → taken_back (Splice path (length front) old new rest seal) (Some (front ++ new ++ behind)) ≡ Some
        (record { path = path; removed = new; written = old; file = Some (front ++ old ++ behind) }) }
    ensures once { (path old new file : List ℕ) (at rest : ℕ) (seal : Option Seal) (edit : Edit)
        → starts_with nat_eq old new ≡ true → old ≢ new
        → taken_back (Splice path at old new rest seal) (Some file) ≡ Some edit
        → taken_back (Splice path at old new rest seal) edit.file ≡ None }
{}

/// The outcome of a command follows the outcomes of its paths: it is refused exactly by the first
/// refusal among them, and where there is none it is a tree, which differs from the tree that was
/// there exactly at the paths that change.
pub fn outcome_follows_path_outcomes()
    ensures refused { (command : Command) (tree : Files) (refusal : Refusal) → (outcome_of command tree ≡ Err refusal)
        ↔ (first_refusal (path_outcomes_of command tree) ≡ Some refusal) }
    ensures accepted { (command : Command) (tree : Files) → (first_refusal (path_outcomes_of command tree) ≡ None)
        ↔ ((after : Files) × (outcome_of command tree ≡ Ok after)) }
    ensures changed { (command : Command) (tree after : Files) (path : List ℕ) → HoldsEntry command
        → outcome_of command tree ≡ Ok after
        → ((harm : Option Harm) × Contains (path_outcomes_of command tree) (Changes path harm))
        ↔ (get tree path ≢ get after path) }
{}

/// The path outcomes of an annotation, in the words of what it makes of a tree. A path that is
/// reported as skipped is gone through and has a file that is skipped, as was asked for; and where
/// nothing is refused, each such path is reported so. A path that is reported as skipped or
/// unchanged holds what it held then, and so does its neighbour. `own` are the kinds that the tree
/// gives to its own names.
pub fn annotations_follow_path_outcomes()
    ensures skipped { (places : List Place) (additions : HeaderAdditions) (how : How) (scope : Scope) (own : OwnKinds)
        (tree : Files) (path : List ℕ) → styles_in tree ≡ Ok own
        → Contains (path_outcomes_of (Annotate places additions how scope) tree) (Skipped path)
        → Contains (selected_paths scope places tree) path × IsSkippedAt scope own tree path }
    ensures reported { (places : List Place) (additions : HeaderAdditions) (how : How) (scope : Scope) (own : OwnKinds)
        (tree after : Files) (path : List ℕ) → styles_in tree ≡ Ok own
        → outcome_of (Annotate places additions how scope) tree ≡ Ok after
        → Contains (selected_paths scope places tree) path → IsSkippedAt scope own tree path
        → Contains (path_outcomes_of (Annotate places additions how scope) tree) (Skipped path) }
    ensures stays { (places : List Place) (additions : HeaderAdditions) (how : How) (scope : Scope) (own : OwnKinds)
        (tree after : Files) (path : List ℕ) → styles_in tree ≡ Ok own
        → outcome_of (Annotate places additions how scope) tree ≡ Ok after
        → Contains (path_outcomes_of (Annotate places additions how scope) tree) (Unchanged path)
        ⊎ Contains (path_outcomes_of (Annotate places additions how scope) tree) (Skipped path)
        → pair_at after path ≡ pair_at tree path }
{
    adding_texts_keeps_other_bytes();
}

/// An undo and a redo follow the path outcomes of the changes that they go through. The first
/// refusal among these names the first path whose change can't be made, which is what the call is
/// refused by; there is none exactly where all changes can be made. So, where a preview reports
/// path outcomes, the call that then answers for the same tree is refused exactly by the first
/// refusal among them, and goes through where there is none.
pub fn steps_follow_path_outcomes()
    ensures refused { (direction : Direction) (tree : Files) (changes : List Change) (path_outcomes : List PathOutcome)
        (refusal : Refusal) → ArePathOutcomesOf direction tree changes path_outcomes
        → (first_refusal path_outcomes ≡ Some refusal)
        ↔ ((path : List ℕ) × (refusal ≡ Moved path) × IsFirstStuck direction tree changes path) }
    ensures accepted { (direction : Direction) (tree : Files) (changes : List Change) (path_outcomes : List PathOutcome)
        → ArePathOutcomesOf direction tree changes path_outcomes → (first_refusal path_outcomes ≡ None)
        ↔ All (CanBeMade direction tree) changes }
    ensures preview_of { (direction : Direction) (steps : List Recorded) (old new : State)
        (path_outcomes : List PathOutcome) (result : Result Response Refusal) (refusal : Refusal)
        → PreviewsReplay direction steps old.tree (Ok path_outcomes)
        → Replays direction steps old result new → (result ≡ Err refusal)
        ↔ (first_refusal path_outcomes ≡ Some refusal) }
{}

/// Where no step is missing from its history, the model gives one answer to a request that names no
/// step by its number, and is in one state then: an undo goes back to the tree before the last
/// step, and a redo on to that after the next. No step is missing then either, unless steps are
/// forgotten that are neither the oldest done nor the last undone.
pub fn model_gives_one_answer()
    ensures one { (state : Snapshots) (request : Request) (first second : Result Response Refusal)
        (next other : Snapshots) → IsUnbroken state → IsByTrees request
        → Gives state request first next → Gives state request second other → (first ≡ second) × (next ≡ other) }
    ensures undone { (state next : Snapshots) (when : ℕ) (answer : Result Response Refusal) → IsUnbroken state
        → Gives state (requests.Make calls.Undo when) answer next → AreOf (undone state state.past) answer next }
    ensures redone { (state next : Snapshots) (when : ℕ) (answer : Result Response Refusal) → IsUnbroken state
        → Gives state (requests.Make calls.Redo when) answer next → AreOf (redone state state.future) answer next }
    ensures unbroken { (state next : Snapshots) (request : Request) (answer : Result Response Refusal)
        → IsUnbroken state → TakesFromTheEnds request state → Gives state request answer next → IsUnbroken next }
{}

/// What the model forgets. Of a state that some files hold, forgetting the oldest steps that are
/// done leaves the state that lacks these; forgetting all leaves no step.
pub fn forgotten_steps_are_gone()
    ensures oldest { (files : Files) (numbers : List ℕ) (state next : Snapshots) → SimulatesInFiles files state
        → IsWithoutOldest numbers state next → snapshots_besides numbers state ≡ next }
    ensures all { (state : Snapshots) → snapshots_besides (numbers_of state) state ≡ alone state }
{}
