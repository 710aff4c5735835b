//! Laws of the amendments.
ghost use Rattle.std.specs.Prelude.{◌≡◌, ◌↔◌, ℕ, true, false, List, Option, None, Some, Contains, map, flat_map};
ghost use Rattle.std.specs.List.{AllByRecursion, list_any};
ghost use Rattle.reuse_notice.specs.declared.infos.Info.{Info};
ghost use Rattle.reuse_amend.specs.declared.amendments.Amendments.{Amendments};
ghost use Rattle.reuse_notice.specs.declared.prefixes.Prefix.{Prefix};
ghost use Rattle.reuse_notice.specs.declared.tags.Years.{Years};
ghost use Rattle.reuse_notice.specs.Tags.{NoticeText, is_blank, all_blank, trimmed, year_of, notice_of};
ghost use Rattle.reuse_notice.specs.Infos.{says_the_same};
ghost use Rattle.reuse_amend.specs.declared.replacements.Replacement.{Replacement};
ghost use Rattle.reuse_notice.specs.Expressions.{IsExpressionText};
ghost use Rattle.reuse_amend.specs.Pieces.{pieces_of, is_identifier};
ghost use Rattle.reuse_amend.specs.Meanings.{Meaning, Means, meaning_replaced, IsMeant, meaning_in_turn};
ghost use Rattle.reuse_amend.specs.Amending.{amended, licence_replaced, licence_amended, text_amended, notice_amended};
ghost use Rattle.reuse_amend.specs.Amending.{parts_amended, licence_alone, contributor_alone};
ghost use Rattle.reuse_amend.specs.Named.{names_licence, names_contributor, names_holder, names_notice, is_new};
ghost use Rattle.reuse_amend.specs.Named.{leaves_licence, leaves_contributor, leaves_holder};
ghost use Rattle.reuse_amend.specs.YearSpans.{spans_of};
ghost use Rattle.reuse_amend.specs.NoticeParts.{Parts, parts_text, parts_of};
ghost use Rattle.reuse_amend.specs.InPlace.{IsChangedInPlace, EachIncludes, goes_on, IsReadAlike, addition_amended};
ghost use Rattle.reuse_amend.specs.Unnamed.{IsOtherLicence, IsOtherContributor, IsOtherNotice};
ghost use Rattle.reuse_notice.specs.ExpressionSteps.{fault_of};
ghost use Rattle.reuse_notice.specs.Adding.{without_spaces, is_bad_text, notice_written};
ghost use Rattle.reuse_notice.specs.Merging.{says};
ghost use Rattle.reuse_notice.specs.MergeSteps.{is_among};
ghost use Rattle.reuse_notice.specs.Plain.{IsPlain};
ghost use Rattle.reuse_amend.specs.Settled.{NoLicenceComesBack, NoTextComesBack, BringNothingBack, ReadsAsAmended};
ghost use Rattle.reuse_amend.specs.Settled.{CanBeWritten, IsPlainAddition, OnlyRemoveNotices, Settles};
ghost use Rattle.reuse_amend.specs.Settled.{HasFourDigits, WritePlainTexts, may_be_misread, may_be_read_on};

/// A licence is its pieces, put together: its tokens and the bytes between them.
pub fn licences_are_their_pieces()
    ensures { (text : List ℕ) → flat_map (λ p. p.0) (pieces_of text) ≡ text }
{}

/// What the amendments don't name stays: each licence none of whose tokens is replaced, so that no
/// identifier is replaced within another; each contributor, and each notice of a holder, byte for
/// byte.
pub fn unnamed_information_stays()
    ensures licences { (a : Amendments) (info new : Info) (value : List ℕ) → amended a info ≡ Some new
        → IsOtherLicence a value → Contains info.licences value → Contains new.licences value }
    ensures contributors { (a : Amendments) (info new : Info) (text : List ℕ) → amended a info ≡ Some new
        → IsOtherContributor a text → Contains info.contributors text → Contains new.contributors text }
    ensures notices { (a : Amendments) (info new : Info) (text : List ℕ) → amended a info ≡ Some new
        → IsOtherNotice a text → Contains info.notices text → Contains new.notices text }
    ensures free { (a : Amendments) (info new : Info) → amended a info ≡ Some new → new.free ≡ info.free }
{}

/// A value that the amendments don't name stays. So does a notice, if they set neither years nor a
/// prefix.
pub fn unnamed_values_stay()
    ensures licences { (a : Amendments) (value : List ℕ) → names_licence a value ≡ false
        → licence_alone a value ≡ Some (Some value) }
    ensures contributors { (a : Amendments) (value : List ℕ) → names_contributor a value ≡ false
        → contributor_alone a value ≡ Some value }
    ensures notices { (a : Amendments) (notice : List ℕ) → names_notice a notice ≡ false → a.until ≡ None
        → a.prefix ≡ None → notice_amended a notice ≡ Some notice }
{}

/// What is left is named. What is named is left, unless it is what one of the replacements writes.
pub fn what_is_named_is_left()
    ensures licences { (a : Amendments) (value : List ℕ) → leaves_licence a value ≡ true
        → names_licence a value ≡ true }
    ensures contributors { (a : Amendments) (value : List ℕ) → leaves_contributor a value ≡ true
        → names_contributor a value ≡ true }
    ensures holders { (a : Amendments) (holder : List ℕ) → leaves_holder a holder ≡ true
        → names_holder a holder ≡ true }
    ensures written { (a : Amendments) (value : List ℕ) → names_licence a value ≡ true
        → leaves_licence a value ≡ false → list_any (is_new value) a.replaced_licences ≡ true }
{}

/// The parts of a notice, put together, are its text. Amendments change them in place: the holder,
/// one span of the years, and all in front of both, if a prefix is set. All else stays byte for
/// byte.
pub fn notices_are_changed_in_place()
    ensures parts { (text : List ℕ) (parts : Parts) → parts_of text ≡ Some parts → parts_text parts ≡ text }
    ensures changed { (a : Amendments) (text new : List ℕ) (parts : Parts) → parts_of text ≡ Some parts
        → notice_amended a text ≡ Some new → IsChangedInPlace a parts new }
{}

/// The years of an amended notice include those that it had: no span is lost, and none ends
/// earlier, if the year has four digits.
pub fn amended_years_include_the_old()
    ensures { (a : Amendments) (parts : Parts) (holder : List ℕ) → HasFourDigits a.until
        → EachIncludes (spans_of parts.years) (spans_of (parts_amended a parts holder).years) }
{}

/// Where annotate reads years in a notice, amend reads the same prefix, years and holder, unless
/// the holder might be read as a part of the years.
pub fn years_are_read_alike()
    ensures { (text : List ℕ) (notice : NoticeText) (years : Years) → notice_of text ≡ Some notice
        → notice.years ≡ Some years → goes_on notice.holder ≡ false
        → (parts : Parts) × (parts_of text ≡ Some parts) × IsReadAlike notice years parts }
{}

/// Information says the same exactly where the notices, the contributors and the licences are the
/// same.
pub fn the_same_is_said_by_the_same()
    ensures { (info other : Info) → (says_the_same info other ≡ true) ↔ ((info.notices ≡ other.notices)
        × (info.contributors ≡ other.contributors) × (info.licences ≡ other.licences)) }
{}

/// A text has a meaning exactly if it is an expression, and then one alone.
pub fn expressions_have_one_meaning()
    ensures some { (text : List ℕ) → IsExpressionText text → (meaning : Meaning) × Means text meaning }
    ensures only { (text : List ℕ) (meaning : Meaning) → Means text meaning → IsExpressionText text }
    ensures one { (text : List ℕ) (meaning other : Meaning) → Means text meaning → Means text other → meaning ≡ other }
{}

/// An identifier that is replaced leaves the rest of the meaning: the new expression means the old
/// one with NEW in the place of each licence that is OLD.
pub fn replaced_licences_keep_their_meaning()
    ensures { (r : Replacement) (value result : List ℕ) (meaning new : Meaning) → is_identifier r.old ≡ true
        → Means value meaning → Means r.new new → licence_replaced r value ≡ Some result
        → Means result (meaning_replaced r new meaning) }
{}

/// So it is with several replacements in turn: the new expression means the old one, in which one
/// replacement was made after the other. A later one replaces what an earlier one wrote, too.
pub fn licences_replaced_in_turn_keep_their_meaning()
    ensures { (replacements : List (Replacement × Meaning)) (value result : List ℕ) (meaning : Meaning)
        → AllByRecursion IsMeant replacements → Means value meaning
        → licence_amended (map (λ p. p.0) replacements) value ≡ Some result
        → Means result (meaning_in_turn replacements meaning) }
{}

/// Amending what was amended changes nothing: not a licence, if the replacements bring in no
/// licence that one of them replaced before; nor the information, if none brings back what it
/// replaced, and each notice is read with what it was to say.
pub fn second_amendments_change_nothing()
    ensures licences { (replacements : List Replacement) (value new : List ℕ) → NoLicenceComesBack replacements
        → licence_amended replacements value ≡ Some new → licence_amended replacements new ≡ Some new }
    ensures information { (a : Amendments) (info new : Info) → BringNothingBack a → HasFourDigits a.until
        → ((text : List ℕ) → Contains info.notices text → ReadsAsAmended a text) → amended a info ≡ Some new
        → amended a new ≡ Some new }
{}

/// So it is of any notices that are written as additions are, if their holders can't be read on as
/// years or a prefix. And it is of all notices, if the amendments only remove some.
pub fn second_amendments_of_written_notices_change_nothing()
    ensures additions { (a : Amendments) (info new : Info) → BringNothingBack a → WritePlainTexts a
        → HasFourDigits a.until → ((text : List ℕ) → Contains info.notices text → IsPlainAddition a text)
        → amended a info ≡ Some new → amended a new ≡ Some new }
    ensures removals { (a : Amendments) (info new : Info) → OnlyRemoveNotices a → NoLicenceComesBack a.replaced_licences
        → NoTextComesBack a.replaced_contributors → amended a info ≡ Some new → amended a new ≡ Some new }
{}

/// Replacing whole texts, of holders or contributors, once more changes nothing exactly if it
/// changes nothing of what becomes of each OLD. So it is if none of them comes back.
pub fn texts_settle_if_the_old_ones_do()
    ensures exactly { (replacements : List Replacement) → ((text : List ℕ) → Settles replacements text)
        ↔ AllByRecursion (λ r. Settles replacements r.old) replacements }
    ensures enough { (replacements : List Replacement) (text : List ℕ) → NoTextComesBack replacements
        → Settles replacements text }
{}

/// What amendments take to be written in the place of others is plain: expressions, and the texts
/// of holders and contributors; and a year has four digits.
pub fn replacing_texts_are_plain()
    ensures licences { (text : List ℕ) → fault_of (without_spaces text) ≡ None → IsPlain (without_spaces text) }
    ensures others { (text : List ℕ) → is_bad_text (without_spaces text) ≡ false → IsPlain (without_spaces text) }
    ensures years { (text : List ℕ) → HasFourDigits (year_of text) }
{}

/// A notice is read with the prefix, the years and the holder that it is written of, where the
/// holder begins neither as years may go on nor as a prefix may. Amended, it is read as the parts
/// that it is put together of, where neither holder might be read as years, too.
pub fn written_notices_are_read()
    ensures written { (prefix : Prefix) (years : Option Years) (holder : List ℕ) → CanBeWritten years
        → all_blank holder ≡ false → trimmed is_blank holder ≡ holder → may_be_misread holder ≡ false
        → says prefix years holder (notice_of (notice_written prefix years holder)) ≡ true }
    ensures amended { (a : Amendments) (prefix : Prefix) (years : Option Years) (holder : List ℕ) → WritePlainTexts a
        → HasFourDigits a.until → CanBeWritten years
        → all_blank holder ≡ false → trimmed is_blank holder ≡ holder → may_be_read_on holder ≡ false
        → may_be_read_on (text_amended a.replaced_holders holder) ≡ false
        → ReadsAsAmended a (notice_written prefix years holder) }
{}

/// A notice that is written as an addition is stays one: it gets the prefix, the years and the
/// holder that the amendments make of its own.
pub fn additions_stay_additions()
    ensures { (a : Amendments) (prefix : Prefix) (years : Option Years) (holder : List ℕ) → CanBeWritten years
        → all_blank holder ≡ false → trimmed is_blank holder ≡ holder → may_be_read_on holder ≡ false
        → is_among a.removed_holders (text_amended a.replaced_holders holder) ≡ false
        → notice_amended a (notice_written prefix years holder) ≡ Some
        (addition_amended a prefix years (text_amended a.replaced_holders holder)) }
{}
