//! Laws of the definitions that the contracts cite.
ghost use Rattle.std.specs.Prelude.{◌≡◌, ◌↔◌, ◌==◌, ◌∷◌, ◌++◌, ℕ, List, Option, None, Some, Ok, true, false, [], map};
ghost use Rattle.std.specs.Prelude.{is_some};
ghost use Rattle.std.specs.List.{after_last, list_all, list_any};
ghost use Rattle.std.specs.Str.{str_eq_ignore_ascii_case};
ghost use Rattle.toml.specs.Data.{Members};
ghost use Rattle.reuse_style.specs.declared.style.Kind.{Kind};
ghost use Rattle.reuse_style.specs.Marks.{GoodStyle, is_filling};
ghost use Rattle.reuse_style.specs.CommentFile.{NamedComments, CommentTexts, StatedComments, comments_of_document};
ghost use Rattle.reuse_style.specs.CommentFile.{comments_document, states_something, comments_by, comments_of};
ghost use Rattle.reuse_style.specs.CommentFile.{texts_named, marks_of};
ghost use Rattle.reuse_style.specs.Kinds.{OwnKinds, fits_file, has_name, kind_by, kind_of_file, kind_unread};
ghost use Rattle.reuse_style.specs.Rules.{Rule, CommentRules, rule_of};
ghost use Rattle.reuse_style.specs.RuleTexts.{RuleTexts};
ghost use Rattle.reuse_style.specs.declared.style.Kind.TheVariants.{Style};
ghost use Rattle.reuse_style.specs.Styles.{punctuation_of};
ghost use Rattle.reuse_style.specs.Names.{slash, dot, from_last, kind_of_name, kind_in, lookup};
ghost use Rattle.reuse_style.specs.StyleFile.{NamedText, texts_of_document, document_of, own_names, kind_named};
ghost use Rattle.reuse_style.specs.StyleFile.{table_kind_named};

/// Own names stand before the table's: the whole of a path's last part is looked for first. A path
/// neither of whose parts is an own name has the table's kind, as each has where there are no own
/// names. Letters of either case are the same.
pub fn own_names_stand_first()
    ensures none { (path : List ℕ) → kind_in (lookup []) path ≡ kind_of_name path }
    ensures empty { (comments : List GoodStyle) → own_names comments (Some []) ≡ Ok (lookup []) }
    ensures others { (own : List ℕ → Option Kind) (path : List ℕ)
        → let part = after_last (λ b. b == slash) path in
        own part ≡ None → own (from_last (λ b. b == dot) part) ≡ None → kind_in own path ≡ kind_of_name path }
    ensures whole { (own : List ℕ → Option Kind) (path : List ℕ) (kind : Kind)
        → own (after_last (λ b. b == slash) path) ≡ Some kind → kind_in own path ≡ kind }
    ensures cases { (own : List (List ℕ × Kind)) (name other : List ℕ) → str_eq_ignore_ascii_case name other ≡ true
        → lookup own name ≡ lookup own other }
{}

/// The names and texts of a document of styles are those that it states: it has the keys `styles`
/// and `version` alone, the one a table of these texts, and the other the number 1.
pub fn style_documents_are_stated()
    ensures { (document : Members) (texts : List NamedText)
        → (texts_of_document document ≡ Some texts) ↔ (document ≡ document_of texts) }
{}

/// What a document of comments states is what says it: it has no keys but `comments`, a table of the
/// styles' tables, `rules`, an array of the rules' tables, and `version`, the number 1; and one of
/// the first two at least.
pub fn comment_documents_are_stated()
    ensures { (document : Members) (stated : StatedComments) → (comments_of_document document ≡ Some stated)
        ↔ ((document ≡ comments_document stated) × (states_something stated ≡ true)) }
{}

/// A text that names an own style names the style of the marks that its texts say. Where there is
/// no file of comments, a text names what it names by itself.
pub fn own_styles_have_their_marks()
    ensures marks { (named : List NamedComments) (rules : List RuleTexts) (own : CommentRules) (name : List ℕ)
        (texts : CommentTexts) → comments_by named rules ≡ Ok own → texts_named named name ≡ Some texts
        → (style : GoodStyle) × (kind_named own.styles name ≡ Some (Style style)) × (style.name ≡ name)
        × (style.marks ≡ marks_of texts) }
    ensures absent { comments_of None ≡ Ok (record { styles = []; rules = [] }) }
    ensures alone { (text : List ℕ) → kind_named [] text ≡ table_kind_named text }
{}

/// The rules of a project are those that their texts say, and each names a style.
pub fn own_rules_name_styles()
    ensures rules { (named : List NamedComments) (rules : List RuleTexts) (own : CommentRules)
        → comments_by named rules ≡ Ok own → own.rules ≡ map rule_of rules }
    ensures styles { (named : List NamedComments) (rules : List RuleTexts) (own : CommentRules)
        → comments_by named rules ≡ Ok own
        → list_all (λ rule. is_some (kind_named own.styles rule.style)) own.rules ≡ true }
{}

/// Without rules, and where a path has an own name, the kind of a file is that of its name. Else the
/// first rule that fits it gives it a kind. Where a kind is known of a file that wasn't read, that is
/// its kind whatever it holds.
pub fn rules_stand_behind_own_names()
    ensures none { (own : OwnKinds) (path file : List ℕ) → own.comments.rules ≡ []
        → kind_of_file own path file ≡ kind_in own.names path }
    ensures none_unread { (own : OwnKinds) (path : List ℕ) → own.comments.rules ≡ []
        → kind_unread own path ≡ Some (kind_in own.names path) }
    ensures own { (own : OwnKinds) (path file : List ℕ) → has_name own.names path ≡ true
        → kind_of_file own path file ≡ kind_in own.names path }
    ensures first { (own : OwnKinds) (path file : List ℕ) (before after : List Rule) (rule : Rule)
        → has_name own.names path ≡ false → own.comments.rules ≡ before ++ rule ∷ after
        → list_any (fits_file path file) before ≡ false → fits_file path file rule ≡ true
        → kind_of_file own path file ≡ kind_by own path (Some rule) }
    ensures unread { (own : OwnKinds) (path file : List ℕ) (kind : Kind) → kind_unread own path ≡ Some kind
        → kind_of_file own path file ≡ kind }
{}

/// No byte that a tag begins with is punctuation of a style: neither `S` nor `C`, nor the first
/// byte of `©`.
pub fn punctuation_keeps_tags()
    ensures { (style : GoodStyle) → list_any (is_filling (punctuation_of style)) (83 ∷ 67 ∷ 194 ∷ []) ≡ false }
{}
