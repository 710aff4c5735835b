//! Laws of files whose headers are removed, lose texts, or get them.
ghost use Rattle.std.specs.Prelude.{◌≡◌, ◌≤◌, ◌+◌, ◌++◌, ◌⊎◌, ℕ, List, [], None, Some, Ok, true, false, length, take};
ghost use Rattle.std.specs.Prelude.{All, drop};
ghost use Rattle.std.specs.Option.{option_map};
ghost use Rattle.std.specs.List.{list_any};
ghost use Rattle.reuse_text.specs.Text.{file_lines, mark_len_of};
ghost use Rattle.reuse_text.specs.declared.TheConstants.{LONGEST_FILE};
ghost use Rattle.reuse_notice.specs.declared.infos.Info.{Info};
ghost use Rattle.reuse_notice.specs.declared.adding.Additions.{Additions};
ghost use Rattle.reuse_notice.specs.Contents.{is_nil, free_of};
ghost use Rattle.reuse_notice.specs.Infos.{info_of};
ghost use Rattle.reuse_notice.specs.Plain.{ArePlain, AreUtf8};
ghost use Rattle.reuse_style.specs.declared.style.Style.{Style};
ghost use Rattle.reuse_style.specs.Styles.{punctuation_of};
ghost use Rattle.reuse_header.specs.declared.annotation.How.{How};
ghost use Rattle.reuse_header.specs.Marks.{LineMarks, marks_of};
ghost use Rattle.reuse_header.specs.Header.{HeaderSpan, span_in, header_of};
ghost use Rattle.reuse_header.specs.Annotation.{Edit, edited, kind_of_file, annotation_of};
ghost use Rattle.reuse_header.specs.Neighbour.{is_text, replaced_contents, neighbour_end, neighbour_annotation_of};
ghost use Rattle.reuse_header.specs.Tagged.{has_tag};
ghost use Rattle.reuse_header.specs.Writing.{neighbour_marks};
ghost use Rattle.reuse_header.specs.Comment.{comment_text};
ghost use Rattle.reuse_header.specs.Body.{body_lines, place_in};
ghost use Rattle.reuse_header.specs.Laws.{IsBlockText, IsInsertion};
ghost use Rattle.reuse_words.specs.Information.{info_with, info_without};
ghost use Rattle.reuse_words.specs.Removal.{gap_behind, untagged_of, neighbour_untagged_of};
ghost use Rattle.reuse_words.specs.Amended.{texts_in, without_texts_of, neighbour_without_texts_of};
ghost use Rattle.reuse_words.specs.Added.{header_edit, text_annotation_of, neighbour_text_annotation_of};
ghost use Rattle.reuse_words.specs.Texts.{AreTexts, text_of};
ghost use Rattle.reuse_words.specs.FileLaws.{Fits, IsUntaggedComment, HasTagsOf, AddsTexts};

use reuse_notice::{holders_are_values, merged_notices_are_written};
use reuse_text::lines_are_one;

/// Removing a header keeps every byte outside of its block, but for an empty line behind a block
/// that goes. Where contents without a tag are there, a comment of them takes the block's place.
pub fn removals_keep_other_bytes()
    ensures gone { (style : Style) (file : List ℕ) (span : HeaderSpan) (edit : Edit)
        → option_map (span_in file) (header_of style file) ≡ Some span → untagged_of style file ≡ Ok (Some edit)
        → is_nil (free_of (punctuation_of style) span.contents) ≡ true
        → edited file edit ≡ take span.start file ++ drop (span.end + gap_behind (drop span.end file)) file }
    ensures left { (style : Style) (file : List ℕ) (span : HeaderSpan) (edit : Edit)
        → option_map (span_in file) (header_of style file) ≡ Some span → untagged_of style file ≡ Ok (Some edit)
        → is_nil (free_of (punctuation_of style) span.contents) ≡ false
        → (edited file edit ≡ take span.start file ++ edit.text ++ drop span.end file)
        × IsUntaggedComment style file span edit.text }
    ensures neighbour_bytes { (file : List ℕ) (edit : Edit) → neighbour_untagged_of file ≡ Ok (Some edit)
        → edited file edit ≡ take (mark_len_of file) file ++ edit.text ++ drop (neighbour_end file) file }
    ensures neighbour_text { (file : List ℕ) (edit : Edit) → neighbour_untagged_of file ≡ Ok (Some edit)
        → (edit.text ≡ comment_text neighbour_marks (kind_of_file file) (free_of [] (replaced_contents true file)))
        × (list_any (has_tag []) (free_of [] (replaced_contents true file)) ≡ false) }
{
    lines_are_one();
}

/// The edit that removes a header lies within its file, and the file that it makes has at most 16
/// MiB.
pub fn removals_fit()
    ensures files { (style : Style) (file : List ℕ) (span : HeaderSpan) (edit : Edit)
        → option_map (span_in file) (header_of style file) ≡ Some span → untagged_of style file ≡ Ok (Some edit)
        → length file ≤ LONGEST_FILE → Fits file edit }
    ensures neighbours { (file : List ℕ) (edit : Edit) → neighbour_untagged_of file ≡ Ok (Some edit) → Fits file edit }
{
    lines_are_one();
}

/// Taking texts out of a header keeps every byte outside of its block, and the edit lies within its
/// file, which stays within 16 MiB. The new block has the form and the tags of the old one. So it is
/// with a neighbour, of which each byte outside of its comment stays.
pub fn texts_alone_are_taken_out()
    ensures bytes { (style : Style) (texts : List (List (List ℕ))) (file : List ℕ) (span : HeaderSpan) (edit : Edit)
        → option_map (span_in file) (header_of style file) ≡ Some span
        → without_texts_of style texts file ≡ Ok (Some edit)
        → edited file edit ≡ take span.start file ++ edit.text ++ drop span.end file }
    ensures fit { (style : Style) (texts : List (List (List ℕ))) (file : List ℕ) (span : HeaderSpan) (edit : Edit)
        → option_map (span_in file) (header_of style file) ≡ Some span
        → without_texts_of style texts file ≡ Ok (Some edit) → Fits file edit }
    ensures text { (style : Style) (texts : List (List (List ℕ))) (file : List ℕ) (span : HeaderSpan) (edit : Edit)
        → option_map (span_in file) (header_of style file) ≡ Some span
        → without_texts_of style texts file ≡ Ok (Some edit)
        → (marks : LineMarks) × IsBlockText style (kind_of_file file) (info_without (punctuation_of style)
        (texts_in (marks_of style span.form) texts) (info_of (punctuation_of style) span.contents))
        span.form marks edit.text }
    ensures neighbour_bytes { (texts : List (List (List ℕ))) (file : List ℕ) (edit : Edit)
        → neighbour_without_texts_of texts file ≡ Ok (Some edit)
        → edited file edit ≡ take (mark_len_of file) file ++ edit.text ++ drop (neighbour_end file) file }
    ensures neighbours_fit { (texts : List (List (List ℕ))) (file : List ℕ) (edit : Edit)
        → neighbour_without_texts_of texts file ≡ Ok (Some edit) → Fits file edit }
{
    lines_are_one();
}

/// Adding information and texts writes both, joined with what the old block said.
pub fn added_texts_are_written()
    ensures { (style : Style) (how : How) (additions : Additions) (texts : List (List (List ℕ)))
        (file : List ℕ) (edit : Edit) → text_annotation_of style how additions texts file ≡ Ok edit
        → AddsTexts style how additions texts file edit }
{
    lines_are_one();
}

/// The edit that adds information and texts lies within its file, and the file that it makes has at
/// most 16 MiB.
pub fn text_annotations_fit()
    ensures files { (style : Style) (how : How) (additions : Additions) (texts : List (List (List ℕ)))
        (file : List ℕ) (edit : Edit) → text_annotation_of style how additions texts file ≡ Ok edit
        → (edit.start + edit.old_len ≤ length file) × (length (edited file edit) ≤ LONGEST_FILE) }
    ensures neighbours { (how : How) (additions : Additions) (texts : List (List (List ℕ))) (file : List ℕ)
        (edit : Edit) → neighbour_text_annotation_of how additions texts file ≡ Ok edit
        → (edit.start + edit.old_len ≤ length file) × (length (edited file edit) ≤ LONGEST_FILE) }
{
    lines_are_one();
}

/// Adding information and texts keeps every byte outside the header block. Where an old block is
/// replaced, the text stands between what stood before that block and what stood behind it. Where
/// there is none, or it is not to be replaced, no byte is taken away: the text stands behind the
/// prefix lines, or behind the mark of a neighbour.
pub fn adding_texts_keeps_other_bytes()
    ensures replaced { (style : Style) (how : How) (additions : Additions) (texts : List (List (List ℕ)))
        (file : List ℕ) (edit : Edit) (span : HeaderSpan) → how.replace ≡ true
        → text_annotation_of style how additions texts file ≡ Ok edit
        → option_map (span_in file) (header_of style file) ≡ Some span
        → edited file edit ≡ take span.start file ++ edit.text ++ drop span.end file }
    ensures inserted { (style : Style) (how : How) (additions : Additions) (texts : List (List (List ℕ)))
        (file : List ℕ) (edit : Edit) → (how.replace ≡ false) ⊎ (header_of style file ≡ None)
        → text_annotation_of style how additions texts file ≡ Ok edit
        → IsInsertion file (place_in file (body_lines style (file_lines file))) edit }
    ensures neighbour_replaced { (how : How) (additions : Additions) (texts : List (List (List ℕ))) (file : List ℕ)
        (edit : Edit) → how.replace ≡ true
        → neighbour_text_annotation_of how additions texts file ≡ Ok edit
        → edited file edit ≡ take (mark_len_of file) file ++ edit.text ++ drop (neighbour_end file) file }
    ensures neighbour_inserted { (how : How) (additions : Additions) (texts : List (List (List ℕ))) (file : List ℕ)
        (edit : Edit) → how.replace ≡ false
        → neighbour_text_annotation_of how additions texts file ≡ Ok edit
        → IsInsertion file (mark_len_of file) edit }
{
    lines_are_one();
}

/// What adding information and texts makes of text is text, UTF-8 without a NUL byte. The
/// information is plain and UTF-8, as `Additions::new` makes it. Each line of the texts is text, and
/// so it is with a text that was read. A neighbour that isn't text is refused.
pub fn added_texts_make_texts()
    ensures files { (style : Style) (how : How) (additions : Additions) (texts : List (List (List ℕ)))
        (file : List ℕ) (edit : Edit) → ArePlain additions → AreUtf8 additions → AreTexts texts
        → is_text file ≡ true → text_annotation_of style how additions texts file ≡ Ok edit
        → is_text (edited file edit) ≡ true }
    ensures neighbours { (how : How) (additions : Additions) (texts : List (List (List ℕ))) (file : List ℕ)
        (edit : Edit) → ArePlain additions → AreUtf8 additions → AreTexts texts
        → neighbour_text_annotation_of how additions texts file ≡ Ok edit
        → (is_text file ≡ true) × (is_text (edited file edit) ≡ true) }
    ensures read { (file : List ℕ) (text : List (List ℕ)) → text_of file ≡ Ok text
        → All (λ line. is_text line ≡ true) text }
{
    lines_are_one();
    merged_notices_are_written();
    holders_are_values();
}

/// Information with texts, and without them, has the same tags.
pub fn texts_keep_tags()
    ensures added { (punct : List ℕ) (texts : List (List (List ℕ))) (info : Info)
        → HasTagsOf info (info_with punct texts info) }
    ensures taken_out { (punct : List ℕ) (texts : List (List (List ℕ))) (info : Info)
        → HasTagsOf info (info_without punct texts info) }
{}

/// Adding information and no texts is adding the information.
pub fn no_texts_add_nothing()
    ensures files { (style : Style) (how : How) (additions : Additions) (file : List ℕ)
        → text_annotation_of style how additions [] file ≡ header_edit (annotation_of style how additions file) }
    ensures neighbours { (how : How) (additions : Additions) (file : List ℕ)
        → neighbour_text_annotation_of how additions [] file
        ≡ header_edit (neighbour_annotation_of how additions file) }
{}
