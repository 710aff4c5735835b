//! From the words of `amend` to what it changes. All texts lose their outer spaces, and none that
//! is searched for may be empty then.
ghost use Rattle.std.specs.Prelude.{◌≡◌, map};
ghost use Rattle.std.specs.List.{list_all, list_any};
ghost use Rattle.reuse_notice.specs.Adding.{is_space};
ghost use Rattle.std.specs.Option.{option_map};
ghost use Rattle.reuse_arguments.specs.AmendSteps.{all_removed, all_replaced, prefix_read, removed, replaced};
ghost use Rattle.reuse_arguments.specs.AmendSteps.{searched_read, with_holder, with_prefix, with_until};
ghost use Rattle.reuse_arguments.specs.AmendWords.{amendments_read, has_amending_value, in_turn, is_amending, steps_of};
ghost use Rattle.reuse_arguments.specs.Found.{found_in, is_given};
ghost use Rattle.reuse_arguments.specs.LineFaults.{IsExpected, IsExpectedAs};

use crate::amend_options::AMENDING;
use crate::line::LineFault;
use crate::prefix_name::prefix_of_name;
use crate::words::found::{flag, is_given, value, values};
use crate::words::unread_words::{or_unread, unread};
use clap::ArgMatches;
use reuse_amend::Amendments;
use reuse_notice::{NoticeRefusal, Prefix};
use reuse_text::Bytes;
use std::alloc::Global;

/// What of the licensing information a text is.
#[derive(Clone, Copy)]
enum Part {
    Licence,
    Holder,
    Contributor,
}

impl Part {
    // OLD becomes NEW.
    fn replace(
        self,
        alloc: Global,
        amendments: &mut Amendments,
        old: &str,
        new: &str,
    ) -> Result<(), LineFault>
        ensures { IsExpectedAs (λ _. amendments.new) (replaced self old.now new.now amendments.old) result }
    {
        let old = searched(alloc, old)?;
        match self {
            Part::Licence => amendments.replace_licence(alloc, old, new)?,
            Part::Holder => amendments.replace_holder(alloc, old, new)?,
            Part::Contributor => amendments.replace_contributor(alloc, old, new)?,
        }
        Ok(())
    }

    // The text goes.
    fn remove(self, alloc: Global, amendments: &mut Amendments, text: &str) -> Result<(), LineFault>
        ensures { IsExpectedAs (λ _. amendments.new) (removed self text.now amendments.old) result }
    {
        let text = searched(alloc, text)?;
        match self {
            Part::Licence => amendments.remove_licence(alloc, text)?,
            Part::Holder => amendments.remove_holder(alloc, text)?,
            Part::Contributor => amendments.remove_contributor(alloc, text)?,
        }
        Ok(())
    }

    // OLD and NEW by turns.
    fn replace_all(
        self,
        alloc: Global,
        amendments: &mut Amendments,
        texts: &[&str],
    ) -> Result<(), LineFault>
        ensures { IsExpectedAs (λ _. amendments.new)
            (all_replaced self (map (λ text. text.now) texts.now) amendments.old) result }
    {
        let mut texts = texts;
        while let [old, new, others @ ..] = texts {
            self.replace(alloc, amendments, old, new)?;
            texts = others;
        }
        if texts.is_empty() {
            Ok(())
        } else {
            Err(unread(alloc, "a text that nothing takes the place of")?)
        }
    }

    fn remove_all(
        self,
        alloc: Global,
        amendments: &mut Amendments,
        texts: &[&str],
    ) -> Result<(), LineFault>
        ensures { IsExpectedAs (λ _. amendments.new)
            (all_removed self (map (λ text. text.now) texts.now) amendments.old) result }
    {
        let mut texts = texts;
        while let [text, others @ ..] = texts {
            self.remove(alloc, amendments, text)?;
            texts = others;
        }
        Ok(())
    }
}

/// What the words are to change. The first fault is reported: that it is nothing; licences, holders
/// and contributors come in this order, of each the replacements first; then the year, the prefix
/// and the holder.
pub fn read_amendments(alloc: Global, matches: &ArgMatches<'_>) -> Result<Amendments, LineFault>
    ensures { IsExpected (amendments_read (found_in matches.now)) result }
{
    if !is_amending(matches) {
        return Err(LineFault::NothingToAmend);
    }
    let mut amendments = Amendments::new(alloc);
    amend(alloc, &mut amendments, matches)?;
    Ok(amendments)
}

fn amend(
    alloc: Global,
    amendments: &mut Amendments,
    matches: &ArgMatches<'_>,
) -> Result<(), LineFault>
    ensures { IsExpectedAs (λ _. amendments.new) (in_turn (steps_of (found_in matches.now)) amendments.old) result }
{
    Part::Licence.replace_all(alloc, amendments, values(matches, "replace-license"))?;
    Part::Licence.remove_all(alloc, amendments, values(matches, "remove-license"))?;
    Part::Holder.replace_all(alloc, amendments, values(matches, "replace-holder"))?;
    Part::Holder.remove_all(alloc, amendments, values(matches, "remove-holder"))?;
    Part::Contributor.replace_all(alloc, amendments, values(matches, "replace-contributor"))?;
    Part::Contributor.remove_all(alloc, amendments, values(matches, "remove-contributor"))?;
    set_until(alloc, amendments, value(matches, "until"))?;
    set_prefix(alloc, amendments, value(matches, "copyright-prefix"))?;
    set_holder(alloc, amendments, value(matches, "holder"))
}

/// Whether something is to be changed.
fn is_amending(matches: &ArgMatches<'_>) -> bool
    ensures { result ≡ is_amending (found_in matches.now) }
{
    has_amending_value(matches) || flag(matches, "remove-header")
}

#[tactic(auto, unfolding(crate::specs::AmendWords::amending_options))]
fn has_amending_value(matches: &ArgMatches<'_>) -> bool
    ensures { result ≡ has_amending_value (found_in matches.now) }
{
    is_one_given(matches, AMENDING)
}

fn is_one_given(matches: &ArgMatches<'_>, options: &[&str]) -> bool
    ensures { result ≡ list_any (is_given (found_in matches.now)) (map (λ option. option.now) options.now) }
{
    let mut options = options;
    while let [option, others @ ..] = options {
        if is_given(matches, option) {
            return true;
        }
        options = others;
    }
    false
}

fn set_until(
    alloc: Global,
    amendments: &mut Amendments,
    year: Option<&str>,
) -> Result<(), LineFault>
    ensures { IsExpectedAs (λ _. amendments.new)
        (with_until (option_map (λ text. text.now) year.entry) amendments.old) result }
{
    match year {
        Some(year) => Ok(amendments.set_until(alloc, year)?),
        None => Ok(()),
    }
}

fn set_prefix(
    alloc: Global,
    amendments: &mut Amendments,
    name: Option<&str>,
) -> Result<(), LineFault>
    ensures { IsExpectedAs (λ _. amendments.new)
        (with_prefix (option_map (λ text. text.now) name.entry) amendments.old) result }
{
    let Some(name) = name else {
        return Ok(());
    };
    amendments.set_prefix(prefix_in(alloc, name)?);
    Ok(())
}

fn set_holder(
    alloc: Global,
    amendments: &mut Amendments,
    holder: Option<&str>,
) -> Result<(), LineFault>
    ensures { IsExpectedAs (λ _. amendments.new)
        (with_holder (option_map (λ text. text.now) holder.entry) amendments.old) result }
{
    let Some(holder) = holder else {
        return Ok(());
    };
    let holder = searched(alloc, holder)?;
    Ok(amendments.set_holder(alloc, holder)?)
}

/// The prefix of this name.
pub fn prefix_in(alloc: Global, name: &str) -> Result<Prefix, LineFault>
    ensures { IsExpected (prefix_read name.now) result }
{
    or_unread(alloc, prefix_of_name(name), "a prefix that nothing reads")
}

/// A text that is searched for in files, which isn't empty.
fn searched<'a>(alloc: Global, text: &'a str) -> Result<&'a str, LineFault>
    ensures { IsExpectedAs (λ found. found.now) (searched_read text.now) result }
{
    if is_blank(text) {
        let refusal = NoticeRefusal::BadText(Bytes::from_slice(alloc, b"")?);
        Err(LineFault::BadAdditions(refusal))
    } else {
        Ok(text)
    }
}

fn is_blank(text: &str) -> bool
    ensures { result ≡ list_all is_space text.now }
{
    text.as_bytes().iter().all(|byte| *byte == b' ')
}
