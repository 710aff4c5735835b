//! Laws of the definitions that the contracts cite.
ghost use Rattle.std.specs.Prelude.{◌≡◌, ◌≤◌, ◌+◌, ◌⊎◌, ◌↔◌, ◌++◌, ℕ, List, Option, None, Some, Ok, true, false};
ghost use Rattle.std.specs.Prelude.{length, take, drop, map, [], ◌==◌, All};
ghost use Rattle.reuse_style.specs.declared.style.Style.{Style};
ghost use Rattle.reuse_header.specs.declared.blocks.BlockSize.{BlockSize};
ghost use Rattle.reuse_header.specs.Body.{PlacedLines, body_lines, place_in};
ghost use Rattle.std.specs.Option.{option_map};
ghost use Rattle.reuse_style.specs.Search.{place_of};
ghost use Rattle.reuse_header.specs.Header.{Header, HeaderSpan, header_in, header_of, span_in, neighbour_contents};
ghost use Rattle.reuse_notice.specs.declared.adding.Additions.{Additions};
ghost use Rattle.reuse_header.specs.declared.annotation.How.{How};
ghost use Rattle.reuse_header.specs.Annotation.{Edit, annotation_of, annotated, edited, new_bytes, kind_of_file};
ghost use Rattle.reuse_header.specs.Annotation.{text_start, text_end};
ghost use Rattle.reuse_header.specs.Neighbour.{is_text, neighbour_annotation_of, neighbour_annotated, neighbour_end};
ghost use Rattle.reuse_header.specs.Writing.{block_lines, block_text, neighbour_marks};
ghost use Rattle.reuse_header.specs.Marks.{LineMarks, marks_of};
ghost use Rattle.reuse_header.specs.Reading.{IsSayable, AreSayable};
ghost use Rattle.reuse_notice.specs.Tags.{is_filler};
ghost use Rattle.reuse_notice.specs.Adding.{Arguments, additions_of};
ghost use Rattle.reuse_notice.specs.Plain.{ArePlain, AreUtf8};
ghost use Rattle.reuse_header.specs.Blocks.{contents_of, count_to_closer, multi_count, without_returns};
ghost use Rattle.reuse_style.specs.Marks.{BlockForm};
ghost use Rattle.reuse_style.specs.Styles.{punctuation_of, first_lines_of, front_matter_of, table_style};
ghost use Rattle.reuse_style.specs.declared.table.TableStyle.{TableStyle};
ghost use Rattle.reuse_header.specs.PrefixLaws.{IsPrefixCut, HasPlainPrefix};
ghost use Rattle.reuse_style.specs.declared.marks.Form.{Form};
ghost use Rattle.reuse_notice.specs.declared.infos.Info.{Info};
ghost use Rattle.reuse_notice.specs.Infos.{info_of, union_of, merged_of};
ghost use Rattle.reuse_text.specs.declared.LineKind.{LineKind};
ghost use Rattle.reuse_text.specs.Text.{file_lines, mark_len_of};
ghost use Rattle.reuse_header.specs.Laws.{part, IsFirstPlace, StandsNowhere, IsEndedBy, IsEnclosed, IsCutAtBarrier};
ghost use Rattle.reuse_header.specs.Laws.{IsInsertion, Keeps, IsBlockText, ReadsAs, AreContents, EndsPlainly};
ghost use Rattle.reuse_header.specs.Laws.{information_in, info_written, neighbour_info_written};
ghost use Rattle.reuse_header.specs.LowerLaws.{Known, Laws};
ghost use Rattle.reuse_header.specs.Splices.{answer_of};
ghost use Rattle.reuse_header.specs.Drafts.{IsWithin};
ghost use Rattle.reuse_header.specs.Split.{AreCommentBlocks, comment_blocks, IsSplit, IsHeaderBlock, HasNoHeader};

use reuse_notice::{
    holders_are_values, longest_prefix_counts, merged_notices_are_written, merging_keeps_holders,
    repeating_adds_nothing, sets_are_one,
};
use reuse_text::{LONGEST_FILE, lines_are_one};

// What the laws of the crates below say, as the proofs of this crate's laws take it.
pub(crate) fn lower_laws()
    ensures known { Known }
    ensures laws { Laws }
{
    lines_are_one();
    sets_are_one();
    longest_prefix_counts();
    merged_notices_are_written();
    holders_are_values();
    repeating_adds_nothing();
}

/// The comment blocks of open lines are one answer: the block whose form begins at a line, unless
/// the line is a later line of another block.
pub fn comment_blocks_are_one()
    ensures are { (style : Style) (contents : List (List ℕ))
        → AreCommentBlocks style contents (comment_blocks style contents) }
    ensures only { (style : Style) (contents : List (List ℕ)) (begins : ℕ → Option BlockSize)
        → AreCommentBlocks style contents begins
        → (line : ℕ) → begins line ≡ comment_blocks style contents line }
{}

/// Lines are the prefix lines and those behind. The prefix lines are an interpreter line, a
/// declaration, as many of the style's first lines as follow, and its front matter, each where it is
/// there. With a style that states neither, as with those of the table, they are the first two alone.
pub fn prefix_lines_stand_in_front()
    ensures cut { (style : Style) (lines : PlacedLines)
        → (first : PlacedLines) × (matter : PlacedLines) × IsPrefixCut style lines first matter }
    ensures plain { (style : Style) (lines : PlacedLines) → first_lines_of style ≡ [] → front_matter_of style ≡ None
        → HasPlainPrefix style lines }
    ensures table { (style : TableStyle) (lines : PlacedLines) → HasPlainPrefix (table_style style) lines }
{}

/// Lines have at most one header split, which the search for the header block finds, and none where
/// that finds none.
pub fn header_splits_are_one()
    ensures found { (style : Style) (lines : PlacedLines) (header : Header) → header_in style 0 lines ≡ Some header
        → (before : PlacedLines) × IsSplit style lines before header }
    ensures only { (style : Style) (lines before : PlacedLines) (header : Header) → IsSplit style lines before header
        → header_in style 0 lines ≡ Some header }
{}

/// The span of a header block cuts its file's bytes in three, by the lines before the block, its
/// own, and those after it. Where the search finds none, the lines have no header split.
pub fn header_spans_cut_files()
    ensures found { (style : Style) (file : List ℕ) (span : HeaderSpan)
        → option_map (span_in file) (header_of style file) ≡ Some span → IsHeaderBlock style file span }
    ensures none { (style : Style) (file : List ℕ) → header_of style file ≡ None → HasNoHeader style file }
{
    lines_are_one();
}

/// A header block lies within its file.
pub fn header_blocks_are_within()
    ensures { (style : Style) (file : List ℕ) → IsWithin file (option_map (span_in file) (header_of style file)) }
{
    lines_are_one();
}

/// The search for a text in bytes finds the least place at which the text stands, and none exactly
/// where it stands nowhere.
pub fn texts_are_found_first()
    ensures found { (text bytes : List ℕ) (place : ℕ)
        → (place_of text bytes ≡ Some place) ↔ IsFirstPlace text bytes place }
    ensures none { (text bytes : List ℕ) → (place_of text bytes ≡ None) ↔ StandsNowhere text bytes }
{}

/// A multi-line block has exactly the lines from its opener to the first that holds the closer
/// behind it, where only blank bytes follow that closer.
pub fn multi_line_blocks_are_enclosed()
    ensures closed { (closer : List ℕ) (lines : List (List ℕ)) (count : ℕ)
        → (count_to_closer closer lines ≡ Some count) ↔ IsEndedBy closer lines count }
    ensures enclosed { (comment : BlockForm) (lines : List (List ℕ)) (count : ℕ)
        → (multi_count comment lines ≡ Some count) ↔ IsEnclosed comment lines count }
{}

/// A neighbour file is its mark, its lines before the first barrier, and the others. The lines
/// before it are exactly the bytes that are replaced, and theirs are the contents that are read.
pub fn neighbours_are_cut_at_barriers()
    ensures { (file : List ℕ) → (open_lines : PlacedLines) × IsCutAtBarrier file open_lines }
{
    lines_are_one();
}

/// The edit that annotating is lies within its file, and the file that it makes has at most 16 MiB.
pub fn annotations_fit()
    ensures files { (style : Style) (how : How) (additions : Additions) (file : List ℕ) (edit : Edit)
        → annotation_of style how additions file ≡ Ok edit
        → (edit.start + edit.old_len ≤ length file) × (length (edited file edit) ≤ LONGEST_FILE) }
    ensures neighbours { (how : How) (additions : Additions) (file : List ℕ) (edit : Edit)
        → neighbour_annotation_of how additions file ≡ Ok edit
        → (edit.start + edit.old_len ≤ length file) × (length (edited file edit) ≤ LONGEST_FILE) }
{
    lines_are_one();
}

/// Annotating keeps every byte outside the header block. Where an old block is replaced, the text
/// stands between what stood before that block and what stood behind it. Where there is none, or it
/// is not to be replaced, no byte is taken away: the text stands behind the prefix lines, or behind
/// the mark of a neighbour.
pub fn annotating_keeps_other_bytes()
    ensures replaced { (style : Style) (how : How) (additions : Additions) (file : List ℕ) (edit : Edit)
        (span : HeaderSpan) → how.replace ≡ true
        → annotation_of style how additions file ≡ Ok edit
        → option_map (span_in file) (header_of style file) ≡ Some span
        → edited file edit ≡ take span.start file ++ edit.text ++ drop span.end file }
    ensures inserted { (style : Style) (how : How) (additions : Additions) (file : List ℕ) (edit : Edit)
        → (how.replace ≡ false) ⊎ (header_of style file ≡ None)
        → annotation_of style how additions file ≡ Ok edit
        → IsInsertion file (place_in file (body_lines style (file_lines file))) edit }
    ensures neighbour_replaced { (how : How) (additions : Additions) (file : List ℕ) (edit : Edit) → how.replace ≡ true
        → neighbour_annotation_of how additions file ≡ Ok edit
        → edited file edit ≡ take (mark_len_of file) file ++ edit.text ++ drop (neighbour_end file) file }
    ensures neighbour_inserted { (how : How) (additions : Additions) (file : List ℕ) (edit : Edit) → how.replace ≡ false
        → neighbour_annotation_of how additions file ≡ Ok edit
        → IsInsertion file (mark_len_of file) edit }
{
    lines_are_one();
}

/// Where the old block is not to be replaced, it stays byte for byte, behind the new one.
pub fn insertions_keep_blocks()
    ensures files { (style : Style) (how : How) (additions : Additions) (file : List ℕ) (edit : Edit)
        (span : HeaderSpan) → how.replace ≡ false
        → annotation_of style how additions file ≡ Ok edit
        → option_map (span_in file) (header_of style file) ≡ Some span
        → part (edited file edit) (span.start + length (new_bytes edit))
        (span.end + length (new_bytes edit)) ≡ part file span.start span.end }
    ensures neighbours { (how : How) (additions : Additions) (file : List ℕ) (edit : Edit) → how.replace ≡ false
        → neighbour_annotation_of how additions file ≡ Ok edit
        → part (edited file edit) (mark_len_of file + length (new_bytes edit))
        (neighbour_end file + length (new_bytes edit)) ≡ part file (mark_len_of file) (neighbour_end file) }
{
    lines_are_one();
}

/// The block that takes an old one's place says what the old one did: each text stands in it, or,
/// where notices are merged, a notice of the same holder whose years include the old ones.
pub fn replacements_keep_information()
    ensures files { (style : Style) (how : How) (additions : Additions) (file : List ℕ) (edit : Edit)
        (span : HeaderSpan) → how.replace ≡ true
        → annotation_of style how additions file ≡ Ok edit
        → option_map (span_in file) (header_of style file) ≡ Some span
        → (info : Info) × (form : Form) × (marks : LineMarks)
        × (IsBlockText style (kind_of_file file) info form marks edit.text)
        × (Keeps how.merge (info_of (punctuation_of style) span.contents) info) }
    ensures neighbours { (how : How) (additions : Additions) (file : List ℕ) (edit : Edit) → how.replace ≡ true
        → neighbour_annotation_of how additions file ≡ Ok edit
        → (info : Info) × (edit.text ≡ block_text neighbour_marks (kind_of_file file) info)
        × (Keeps how.merge (info_of [] (neighbour_contents file)) info) }
{
    sets_are_one();
    merging_keeps_holders();
}

/// Reading the block that is written of some information, in any style and form, gives that
/// information again, where each of its texts reads as what it is.
pub fn written_blocks_read_back()
    ensures files { (style : Style) (form : Form) (marks : LineMarks) (info : Info) (rest : List (List ℕ))
        → marks_of style form ≡ Some marks → IsSayable (punctuation_of style) info
        → info_of (punctuation_of style) (contents_of style
        (record { form = form; count = length (block_lines marks info) }) (block_lines marks info ++ rest)) ≡ info }
    ensures neighbours { (info : Info) → IsSayable [] info
        → info_of [] (map without_returns (block_lines neighbour_marks info)) ≡ info }
{
    sets_are_one();
}

/// The block that annotating writes is the new file's header block, and says what was written.
pub fn written_blocks_are_found()
    ensures { (style : Style) (how : How) (additions : Additions) (file : List ℕ) (edit : Edit) (info : Info)
        (form : Form) (marks : LineMarks)
        → annotation_of style how additions file ≡ Ok edit
        → IsBlockText style (kind_of_file file) info form marks edit.text
        → IsSayable (punctuation_of style) info → AreContents (kind_of_file file) (block_lines marks info)
        → (span : HeaderSpan) × ReadsAs style (edited file edit) (text_start edit) (text_end edit) form info span }
{
    lines_are_one();
    sets_are_one();
}

/// What is read from a header block's or a neighbour's contents reads back, also joined with
/// additions that do, where `S`, the first letter of the written leads (`SPDX-`), is no
/// punctuation; and what is merged reads back.
pub fn information_is_sayable()
    ensures read { (punct : List ℕ) (contents : List (List ℕ)) → is_filler punct 83 ≡ false
        → All (λ content. without_returns content ≡ content) contents
        → IsSayable punct (info_of punct contents) }
    ensures found { (style : Style) (file : List ℕ) (span : HeaderSpan)
        → option_map (span_in file) (header_of style file) ≡ Some span
        → IsSayable (punctuation_of style) (info_of (punctuation_of style) span.contents) }
    ensures neighbours { (file : List ℕ) → IsSayable [] (info_of [] (neighbour_contents file)) }
    ensures joined { (punct : List ℕ) (info : Info) (additions : Additions) → IsSayable punct info
        → AreSayable punct additions → IsSayable punct (union_of info additions) }
    ensures merged { (style : Style) (info : Info) (additions : Additions)
        → (IsSayable (punctuation_of style) info → IsSayable (punctuation_of style) (merged_of info additions))
        × (IsSayable [] info → IsSayable [] (merged_of info additions)) }
    ensures added { (style : Style) (arguments : Arguments) → ArePlain (additions_of arguments)
        → AreSayable (punctuation_of style) (additions_of arguments) × AreSayable [] (additions_of arguments) }
{
    lower_laws();
}

/// The information that annotating writes reads back, and its lines are the contents of lines: they
/// hold no LF, and no CR at their ends.
pub fn written_information_is_sayable()
    ensures files { (style : Style) (how : How) (arguments : Arguments) (file : List ℕ) (kind : LineKind) (form : Form)
        (marks : LineMarks) → ArePlain (additions_of arguments) → marks_of style form ≡ Some marks
        → let info = info_written style how (additions_of arguments) file in
        (IsSayable (punctuation_of style) info) × (AreContents kind (block_lines marks info)) }
    ensures neighbours { (how : How) (arguments : Arguments) (file : List ℕ) (kind : LineKind)
        → ArePlain (additions_of arguments)
        → let info = neighbour_info_written how (additions_of arguments) file in
        (IsSayable [] info) × (AreContents kind (block_lines neighbour_marks info)) }
{
    lower_laws();
}

/// What is read of the file that annotating made is the information that was to be written: its
/// header block says that, or a neighbour's contents, or, where old ones are not to be replaced,
/// the first of them, which are the lines of the new block.
pub fn annotated_files_read_back()
    ensures files { (style : Style) (how : How) (arguments : Arguments) (file made : List ℕ)
        → ArePlain (additions_of arguments) → annotated style how (additions_of arguments) file ≡ Ok made
        → information_in style made ≡ Some (info_written style how (additions_of arguments) file) }
    ensures neighbours { (how : How) (arguments : Arguments) (file made : List ℕ) → how.replace ≡ true
        → ArePlain (additions_of arguments) → neighbour_annotated how (additions_of arguments) file ≡ Ok made
        → info_of [] (neighbour_contents made) ≡ neighbour_info_written how (additions_of arguments) file }
    ensures begun_neighbours { (how : How) (arguments : Arguments) (file made : List ℕ) → how.replace ≡ false
        → ArePlain (additions_of arguments) → neighbour_annotated how (additions_of arguments) file ≡ Ok made
        → let info = neighbour_info_written how (additions_of arguments) file in
        info_of [] (take (length (block_lines neighbour_marks info)) (neighbour_contents made)) ≡ info }
{
    lower_laws();
}

/// What annotating makes of text is text, UTF-8 without a NUL byte, where the additions are plain
/// and UTF-8, as `Additions::new` makes them. A neighbour that isn't text is refused.
pub fn annotated_texts_are_texts()
    ensures files { (style : Style) (how : How) (additions : Additions) (file made : List ℕ) → ArePlain additions
        → AreUtf8 additions → is_text file ≡ true
        → annotated style how additions file ≡ Ok made → is_text made ≡ true }
    ensures neighbours { (how : How) (additions : Additions) (file made : List ℕ) → ArePlain additions
        → AreUtf8 additions → neighbour_annotated how additions file ≡ Ok made
        → (is_text file ≡ true) × (is_text made ≡ true) }
{
    lower_laws();
}

/// Where old blocks are replaced, the same call on the file that annotating made changes nothing.
/// One file is left out: one of a single prefix line that is not ended and ends in CR, since the
/// ending that is put behind it makes that CR a part of a CRLF, and the file one of another kind. A
/// neighbour that isn't text is refused, and what is made of one is text where the additions are
/// plain and UTF-8, as `Additions::new` makes them.
pub fn annotating_again_changes_nothing()
    ensures files { (style : Style) (how : How) (arguments : Arguments) (file made : List ℕ) → how.replace ≡ true
        → ArePlain (additions_of arguments) → EndsPlainly style file
        → annotated style how (additions_of arguments) file ≡ Ok made
        → answer_of made (annotation_of style how (additions_of arguments) made) ≡ Ok None }
    ensures neighbours { (how : How) (arguments : Arguments) (file made : List ℕ) → how.replace ≡ true
        → ArePlain (additions_of arguments) → AreUtf8 (additions_of arguments)
        → neighbour_annotated how (additions_of arguments) file ≡ Ok made
        → answer_of made (neighbour_annotation_of how (additions_of arguments) made) ≡ Ok None }
{
    lower_laws();
    annotated_texts_are_texts();
}
