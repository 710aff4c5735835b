//! Laws of amending.
ghost use Rattle.std.specs.Prelude.{◌≡◌, ◌++◌, ◌+◌, ◌≤◌, ℕ, List, [], Option, None, Some, Ok, true, length, take, drop};
ghost use Rattle.std.specs.Option.{option_map};
ghost use Rattle.reuse_notice.specs.declared.infos.Info.{Info};
ghost use Rattle.reuse_amend.specs.declared.amendments.Amendments.{Amendments};
ghost use Rattle.reuse_notice.specs.Infos.{info_of, says_the_same};
ghost use Rattle.reuse_amend.specs.Amending.{amended};
ghost use Rattle.reuse_amend.specs.Settled.{BringNothingBack, WritePlainTexts, WriteUtf8Texts, HasFourDigits};
ghost use Rattle.reuse_text.specs.Text.{mark_len_of};
ghost use Rattle.reuse_text.specs.declared.TheConstants.{LONGEST_FILE};
ghost use Rattle.reuse_text.specs.declared.LineKind.{LineKind};
ghost use Rattle.reuse_style.specs.declared.style.Style.{Style};
ghost use Rattle.reuse_style.specs.declared.marks.Form.{Form};
ghost use Rattle.reuse_style.specs.Styles.{punctuation_of};
ghost use Rattle.reuse_header.specs.Marks.{LineMarks, marks_of};
ghost use Rattle.reuse_header.specs.Header.{HeaderSpan, span_in, header_of, neighbour_contents};
ghost use Rattle.reuse_header.specs.Writing.{block_lines, neighbour_marks};
ghost use Rattle.reuse_header.specs.Reading.{IsSayable};
ghost use Rattle.reuse_header.specs.Annotation.{Edit, edited, kind_of_file, text_start, text_end};
ghost use Rattle.reuse_header.specs.Neighbour.{is_text, neighbour_end};
ghost use Rattle.reuse_header.specs.Laws.{IsBlockText, ReadsAs, AreContents, information_in};
ghost use Rattle.reuse_header.specs.Amendment.{amendment_of, neighbour_amendment_of, amended_file};
ghost use Rattle.reuse_header.specs.AmendmentLaws.{AmendsBlock, AmendsNeighbour, NoticesReadAsAmended};

use crate::laws::lower_laws;
use reuse_amend::second_amendments_change_nothing;
use reuse_notice::sets_are_one;
use reuse_text::lines_are_one;

/// Amending makes nothing: a file without a header block stays, and so does one whose block the
/// amendments change nothing of.
pub fn unamended_files_stay()
    ensures none { (style : Style) (a : Amendments) (file : List ℕ)
        → option_map (span_in file) (header_of style file) ≡ None → amendment_of style a file ≡ Ok None }
    ensures same { (style : Style) (a : Amendments) (file : List ℕ) (span : HeaderSpan) (new : Info)
        → option_map (span_in file) (header_of style file) ≡ Some span
        → let old = info_of (punctuation_of style) span.contents in
        amended a old ≡ Some new → says_the_same old new ≡ true → amendment_of style a file ≡ Ok None }
{}

/// Amending keeps every byte outside the block: the new text stands between what stood in front of
/// the old block and what stood behind it.
pub fn amending_keeps_other_bytes()
    ensures files { (style : Style) (a : Amendments) (file : List ℕ) (edit : Edit) (span : HeaderSpan)
        → amendment_of style a file ≡ Ok (Some edit)
        → option_map (span_in file) (header_of style file) ≡ Some span
        → edited file edit ≡ take span.start file ++ edit.text ++ drop span.end file }
    ensures neighbours { (a : Amendments) (file : List ℕ) (edit : Edit) → neighbour_amendment_of a file ≡ Ok (Some edit)
        → edited file edit ≡ take (mark_len_of file) file ++ edit.text ++ drop (neighbour_end file) file }
{
    lines_are_one();
}

/// The edit that amending is lies within its file, and the file that it makes has at most 16 MiB.
pub fn amendments_fit()
    ensures files { (style : Style) (a : Amendments) (file : List ℕ) (edit : Edit)
        → amendment_of style a file ≡ Ok (Some edit)
        → (edit.start + edit.old_len ≤ length file) × (length (edited file edit) ≤ LONGEST_FILE) }
    ensures neighbours { (a : Amendments) (file : List ℕ) (edit : Edit) → neighbour_amendment_of a file ≡ Ok (Some edit)
        → (edit.start + edit.old_len ≤ length file) × (length (edited file edit) ≤ LONGEST_FILE) }
{
    lines_are_one();
}

/// The new block says the amended information in the form of the old block, and the contents
/// without a tag stay.
pub fn amended_blocks_say_what_is_amended()
    ensures files { (style : Style) (a : Amendments) (file : List ℕ) (edit : Edit) (span : HeaderSpan)
        → amendment_of style a file ≡ Ok (Some edit)
        → option_map (span_in file) (header_of style file) ≡ Some span → AmendsBlock style a file span edit }
    ensures neighbours { (a : Amendments) (file : List ℕ) (edit : Edit) → neighbour_amendment_of a file ≡ Ok (Some edit)
        → AmendsNeighbour a file edit }
{}

/// The block that amending writes is the new file's header block, and reading it gives what was
/// written, where each of its texts reads as what it is and its lines are the contents of lines.
pub fn amended_blocks_read_back()
    ensures { (style : Style) (a : Amendments) (file : List ℕ) (edit : Edit) (span : HeaderSpan) (info : Info)
        (form : Form) (marks : LineMarks)
        → amendment_of style a file ≡ Ok (Some edit) → option_map (span_in file) (header_of style file) ≡ Some span
        → IsBlockText style (kind_of_file file) info form marks edit.text
        → IsSayable (punctuation_of style) info → AreContents (kind_of_file file) (block_lines marks info)
        → (written : HeaderSpan)
        × ReadsAs style (edited file edit) (text_start edit) (text_end edit) form info written }
{
    lines_are_one();
    sets_are_one();
}

/// What amending writes reads back, and its lines are the contents of lines, where each new text is
/// plain.
pub fn amended_information_is_sayable()
    ensures files { (style : Style) (a : Amendments) (file : List ℕ) (span : HeaderSpan) (new : Info) (kind : LineKind)
        (form : Form) (marks : LineMarks) → WritePlainTexts a
        → option_map (span_in file) (header_of style file) ≡ Some span
        → amended a (info_of (punctuation_of style) span.contents) ≡ Some new → marks_of style form ≡ Some marks
        → (IsSayable (punctuation_of style) new) × (AreContents kind (block_lines marks new)) }
    ensures neighbours { (a : Amendments) (file : List ℕ) (new : Info) (kind : LineKind) → WritePlainTexts a
        → amended a (info_of [] (neighbour_contents file)) ≡ Some new
        → (IsSayable [] new) × (AreContents kind (block_lines neighbour_marks new)) }
{
    lower_laws();
}

/// What amending makes of text is text, UTF-8 without a NUL byte, where each new text is plain and
/// UTF-8, and the year has four digits. A neighbour that isn't text is refused.
pub fn amended_texts_are_texts()
    ensures files { (style : Style) (a : Amendments) (file made : List ℕ) → WritePlainTexts a → WriteUtf8Texts a
        → HasFourDigits a.until → is_text file ≡ true
        → amended_file file (amendment_of style a file) ≡ Ok made → is_text made ≡ true }
    ensures neighbours { (a : Amendments) (file made : List ℕ) → WritePlainTexts a → WriteUtf8Texts a
        → HasFourDigits a.until
        → amended_file file (neighbour_amendment_of a file) ≡ Ok made → (is_text file ≡ true) × (is_text made ≡ true) }
{
    lower_laws();
}

/// The same amendments leave a file that they made as it is, where they bring nothing back, write
/// plain texts and a year of four digits, and each notice that they write is read as the parts that
/// it is put together of. A neighbour must still be text: if not, it is refused.
pub fn second_amendments_leave_files()
    ensures files { (style : Style) (a : Amendments) (file made : List ℕ) → BringNothingBack a → HasFourDigits a.until
        → WritePlainTexts a
        → ((info : Info) → information_in style file ≡ Some info → NoticesReadAsAmended a info)
        → amended_file file (amendment_of style a file) ≡ Ok made → amendment_of style a made ≡ Ok None }
    ensures neighbours { (a : Amendments) (file made : List ℕ) → BringNothingBack a → HasFourDigits a.until
        → WritePlainTexts a → NoticesReadAsAmended a (info_of [] (neighbour_contents file))
        → is_text made ≡ true → amended_file file (neighbour_amendment_of a file) ≡ Ok made
        → neighbour_amendment_of a made ≡ Ok None }
{
    lower_laws();
    second_amendments_change_nothing();
}
