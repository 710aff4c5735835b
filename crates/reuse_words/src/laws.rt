//! Laws of runs: where a text stands among contents, and what contents with it and without it are.
ghost use Rattle.std.specs.Prelude.{◌≡◌, ◌≢◌, ◌+◌, ◌++◌, ℕ, List, [], None, Some, true, false, take, drop};
ghost use Rattle.std.specs.List.{list_all, list_any};
ghost use Rattle.reuse_words.specs.declared.runs.Run.{Run};
ghost use Rattle.reuse_words.specs.Words.{words_of};
ghost use Rattle.reuse_words.specs.Information.{with_texts, info_with};
ghost use Rattle.reuse_notice.specs.declared.infos.Info.{Info};
ghost use Rattle.reuse_style.specs.declared.style.Style.{Style};
ghost use Rattle.reuse_style.specs.Styles.{punctuation_of};
ghost use Rattle.reuse_header.specs.Tagged.{has_tag};
ghost use Rattle.reuse_words.specs.Texts.{every_mark};
ghost use Rattle.reuse_words.specs.Runs.{run_of, holds_text, with_text, without_text, IsCut, IsFirstRun};

/// A line that is a tag in some style, behind the punctuation of that, is refused in a text: no line
/// of a text is one, whatever the style.
pub fn texts_have_no_tags()
    ensures content { (style : Style) (content : List ℕ) → has_tag (punctuation_of style) content ≡ true
        → has_tag every_mark content ≡ true }
    ensures lines { (style : Style) (lines : List (List ℕ)) → list_any (has_tag every_mark) lines ≡ false
        → list_any (has_tag (punctuation_of style)) lines ≡ false }
{}

/// The run of contents that is found is the first one that is the same text. Where none is found, no
/// run is, if the text has words.
pub fn runs_are_first()
    ensures found { (punct : List ℕ) (text contents : List (List ℕ)) (run : Run) → run_of punct text contents ≡ Some run
        → IsFirstRun punct (words_of punct text) contents (take run.start contents)
        (take run.count (drop run.start contents)) (drop (run.start + run.count) contents) }
    ensures none { (punct : List ℕ) (text contents : List (List ℕ)) → words_of punct text ≢ []
        → run_of punct text contents ≡ None
        → (front run back : List (List ℕ)) → IsCut punct (words_of punct text) contents front run back → ⊥ }
{}

/// Contents with a text hold it, and contents that hold it stay: with it once more they are the
/// same.
pub fn texts_are_added_once()
    ensures held { (punct : List ℕ) (text contents : List (List ℕ))
        → holds_text punct text (with_text punct text contents) ≡ true }
    ensures stays { (punct : List ℕ) (text contents : List (List ℕ)) → holds_text punct text contents ≡ true
        → with_text punct text contents ≡ contents }
    ensures again { (punct : List ℕ) (text contents : List (List ℕ))
        → with_text punct text (with_text punct text contents) ≡ with_text punct text contents }
{}

/// Contents with several texts hold each of them, and with the same texts once more they are the
/// same. So does information with them, if none of its free contents would be a tag.
pub fn all_texts_are_added_once()
    ensures held { (punct : List ℕ) (texts : List (List (List ℕ))) (contents : List (List ℕ))
        → list_all (λ text. holds_text punct text (with_texts punct texts contents)) texts ≡ true }
    ensures again { (punct : List ℕ) (texts : List (List (List ℕ))) (contents : List (List ℕ))
        → with_texts punct texts (with_texts punct texts contents) ≡ with_texts punct texts contents }
    ensures information { (punct : List ℕ) (texts : List (List (List ℕ))) (info : Info)
        → list_any (has_tag punct) (with_texts punct texts info.free) ≡ false
        → list_all (λ text. holds_text punct text (info_with punct texts info).free) texts ≡ true }
{}

/// Contents without a text lack exactly the first run that is it: those in front of it and behind it
/// stay, in order. All stay where no run is the text.
pub fn first_runs_are_taken_out()
    ensures found { (punct : List ℕ) (text contents : List (List ℕ)) (run : Run) → run_of punct text contents ≡ Some run
        → without_text punct text contents ≡ take run.start contents ++ drop (run.start + run.count) contents }
    ensures stays { (punct : List ℕ) (text contents : List (List ℕ)) → run_of punct text contents ≡ None
        → without_text punct text contents ≡ contents }
{}
