//! What a command changes in the licensing information of a file: which licences, holders and
//! contributors are replaced or removed, and which years and prefixes the notices get. The replaced
//! texts are made fit to be written here, so that what is amended can be written and read back.
ghost use Rattle.std.specs.Prelude.{◌≡◌, ◌++◌, ◌∷◌, [], IfErr, IfOk, IfSome, OnOk, OnErr, Some, true, false};
ghost use Rattle.reuse_notice.specs.Tags.{year_of};
ghost use Rattle.reuse_notice.specs.Adding.{without_spaces, is_bad_text, is_bad_year};
ghost use Rattle.reuse_notice.specs.ExpressionSteps.{fault_of};

use crate::replacements::{Replacement, Replacements};
use reuse_notice::{
    NoticeRefusal, Prefix, Texts, copy_text, find_fault, is_unfit, parse_year, trim_spaces,
};
use reuse_text::Bytes;
use std::alloc::{AllocError, Global};
use thiserror::Error;

/// Changes of licensing information. Licences, holders and contributors are replaced one after the
/// other, in the order of the calls, and then removed; then notices get their years and their
/// prefix.
#[derive(Debug, Drop)]
pub struct Amendments {
    pub(crate) replaced_licences: Replacements,
    pub(crate) removed_licences: Texts,
    pub(crate) replaced_holders: Replacements,
    pub(crate) removed_holders: Texts,
    pub(crate) replaced_contributors: Replacements,
    pub(crate) removed_contributors: Texts,
    pub(crate) until: Option<u16>,
    pub(crate) prefix: Option<Prefix>,
    pub(crate) holder: Option<Bytes>,
}

/// Why licensing information is not amended.
#[derive(Debug, Drop, Error)]
pub enum AmendRefusal {
    /// A licence would leave the grammar.
    #[error("bad licence expression")]
    BadExpression,
    /// There was no memory.
    #[error("out of memory")]
    Memory(AllocError),
}

impl From<AllocError> for AmendRefusal {
    ghost use Rattle.reuse_amend.specs.declared.amendments.AmendRefusal.TheVariants.{Memory};

    ghost from_gives = { λ e r. r ≡ Memory e };

    fn from(e: AllocError) -> AmendRefusal {
        AmendRefusal::Memory(e)
    }
}

impl Amendments {
    ghost use Rattle.reuse_notice.specs.Refusals.{refusal_view};
    ghost use Rattle.reuse_notice.specs.Adding.{bad_licence, bad_text, bad_year};
    ghost use Rattle.reuse_amend.specs.AmendmentViews.{no_amendments, replacement};
    ghost use Rattle.reuse_amend.specs.Amending.{concerns, if_concerned};

    /// Amendments that change nothing.
    pub fn new(alloc: Global) -> Amendments
        ensures { result ≡ no_amendments }
    {
        Amendments {
            replaced_licences: Replacements::new(alloc),
            removed_licences: Texts::new(Vec::new(alloc)),
            replaced_holders: Replacements::new(alloc),
            removed_holders: Texts::new(Vec::new(alloc)),
            replaced_contributors: Replacements::new(alloc),
            removed_contributors: Texts::new(Vec::new(alloc)),
            until: None,
            prefix: None,
            holder: None,
        }
    }

    /// Licences that are `old` become `new`, and so does each identifier `old` within an
    /// expression. Outer spaces are dropped, here and below.
    ///
    /// # Errors
    /// `BadExpression` where `new` is no licence expression. On an error the amendments stay, here
    /// and below.
    pub fn replace_licence(
        &mut self,
        alloc: Global,
        old: &str,
        new: &str,
    ) -> Result<(), NoticeRefusal>
        ensures ok { OnOk result ((fault_of (without_spaces new.now) ≡ None) × (self.new
            ≡ record self.old { replaced_licences = self.old.replaced_licences ++ replacement old.now new.now ∷ [] })) }
        ensures err { OnErr result (self.new ≡ self.old) }
        ensures refused { IfErr result
            (λ e. IfSome (refusal_view e) (λ refusal. bad_licence (without_spaces new.now ∷ []) ≡ Some refusal)) }
    {
        let text = trim_spaces(new);
        if let Some(place) = find_fault(text) {
            return Err(NoticeRefusal::BadExpression(Bytes::from_slice(alloc, text)?, place));
        }
        self.replaced_licences
            .push(Amendments::make_replacement(alloc, old, new)?)?;
        Ok(())
    }

    /// Licences that are `text` go.
    ///
    /// # Errors
    /// There was no memory, as on the other errors of this type.
    pub fn remove_licence(&mut self, alloc: Global, text: &str) -> Result<(), AllocError>
        ensures ok { OnOk result (self.new
            ≡ record self.old { removed_licences = self.old.removed_licences ++ without_spaces text.now ∷ [] }) }
        ensures err { OnErr result (self.new ≡ self.old) }
    {
        self.removed_licences.push(copy_text(alloc, text)?)
    }

    /// Notices of the holder `old` become notices of `new`.
    ///
    /// # Errors
    /// `BadText` where `new` is empty, has a control character or holds a barrier text.
    pub fn replace_holder(
        &mut self,
        alloc: Global,
        old: &str,
        new: &str,
    ) -> Result<(), NoticeRefusal>
        ensures ok { OnOk result ((is_bad_text (without_spaces new.now) ≡ false) × (self.new
            ≡ record self.old { replaced_holders = self.old.replaced_holders ++ replacement old.now new.now ∷ [] })) }
        ensures err { OnErr result (self.new ≡ self.old) }
        ensures refused { IfErr result (λ e. IfSome (refusal_view e) (λ refusal.
            (is_bad_text (without_spaces new.now) ≡ true) × (refusal ≡ bad_text (without_spaces new.now)))) }
    {
        let text = trim_spaces(new);
        if is_unfit(text) {
            return Err(NoticeRefusal::BadText(Bytes::from_slice(alloc, text)?));
        }
        self.replaced_holders
            .push(Amendments::make_replacement(alloc, old, new)?)?;
        Ok(())
    }

    /// Notices of the holder go.
    pub fn remove_holder(&mut self, alloc: Global, holder: &str) -> Result<(), AllocError>
        ensures ok { OnOk result (self.new
            ≡ record self.old { removed_holders = self.old.removed_holders ++ without_spaces holder.now ∷ [] }) }
        ensures err { OnErr result (self.new ≡ self.old) }
    {
        self.removed_holders.push(copy_text(alloc, holder)?)
    }

    /// Contributors that are `old` become `new`.
    ///
    /// # Errors
    /// `BadText` where `new` is empty, has a control character or holds a barrier text.
    pub fn replace_contributor(
        &mut self,
        alloc: Global,
        old: &str,
        new: &str,
    ) -> Result<(), NoticeRefusal>
        ensures ok { OnOk result ((is_bad_text (without_spaces new.now) ≡ false)
            × (self.new ≡ record self.old {
              replaced_contributors = self.old.replaced_contributors ++ replacement
                  old.now new.now ∷ [];
            })) }
        ensures err { OnErr result (self.new ≡ self.old) }
        ensures refused { IfErr result (λ e. IfSome (refusal_view e) (λ refusal.
            (is_bad_text (without_spaces new.now) ≡ true) × (refusal ≡ bad_text (without_spaces new.now)))) }
    {
        let text = trim_spaces(new);
        if is_unfit(text) {
            return Err(NoticeRefusal::BadText(Bytes::from_slice(alloc, text)?));
        }
        self.replaced_contributors
            .push(Amendments::make_replacement(alloc, old, new)?)?;
        Ok(())
    }

    /// Contributors that are `text` go.
    pub fn remove_contributor(&mut self, alloc: Global, text: &str) -> Result<(), AllocError>
        ensures ok { OnOk result (self.new ≡ record self.old {
          removed_contributors = self.old.removed_contributors
              ++ without_spaces text.now ∷ [];
        }) }
        ensures err { OnErr result (self.new ≡ self.old) }
    {
        self.removed_contributors.push(copy_text(alloc, text)?)
    }

    /// The years of notices reach `year`, in place of the year that was set before.
    ///
    /// # Errors
    /// `BadYear` where `year` is not four ASCII digits.
    pub fn set_until(&mut self, alloc: Global, year: &str) -> Result<(), NoticeRefusal>
        ensures ok { OnOk result ((is_bad_year (without_spaces year.now) ≡ false)
            × (self.new ≡ record self.old { until = year_of (without_spaces year.now) })) }
        ensures err { OnErr result (self.new ≡ self.old) }
        ensures refused { IfErr result (λ e. IfSome (refusal_view e) (λ refusal.
            (is_bad_year (without_spaces year.now) ≡ true) × (refusal ≡ bad_year (without_spaces year.now)))) }
    {
        let text = trim_spaces(year);
        match parse_year(text) {
            None => Err(NoticeRefusal::BadYear(Bytes::from_slice(alloc, text)?)),
            Some(number) => {
                self.until = Some(number);
                Ok(())
            }
        }
    }

    /// Notices are written with this prefix, in place of the one that was set before.
    pub fn set_prefix(&mut self, prefix: Prefix)
        ensures { self.new ≡ record self.old { prefix = Some prefix } }
    {
        self.prefix = Some(prefix);
    }

    /// The year and the prefix are for the notices of this holder alone, in place of the one that
    /// was set before.
    pub fn set_holder(&mut self, alloc: Global, holder: &str) -> Result<(), AllocError>
        ensures ok { OnOk result (self.new ≡ record self.old { holder = Some (without_spaces holder.now) }) }
        ensures err { OnErr result (self.new ≡ self.old) }
    {
        self.holder = Some(copy_text(alloc, holder)?);
        Ok(())
    }

    // The year and the prefix that are chosen for the notices of a holder.
    pub(crate) fn chosen_for(&self, holder: &[u8]) -> (Option<u16>, Option<Prefix>)
        ensures until { result.0 ≡ if_concerned self.now holder.now self.now.until }
        ensures prefix { result.1 ≡ if_concerned self.now holder.now self.now.prefix }
    {
        if self.concern(holder) {
            (self.until, self.prefix)
        } else {
            (None, None)
        }
    }

    // Whether the year and the prefix are for the notices of this holder.
    fn concern(&self, holder: &[u8]) -> bool
        ensures { result ≡ concerns self.now holder.now }
    {
        match &self.holder {
            None => true,
            Some(only) => holder == only.as_slice(),
        }
    }

    // A replacement of texts, without their outer spaces.
    fn make_replacement(alloc: Global, old: &str, new: &str) -> Result<Replacement, AllocError>
        ensures { IfOk result (λ made. made ≡ replacement old.now new.now) }
    {
        Ok(Replacement {
            old: copy_text(alloc, old)?,
            new: copy_text(alloc, new)?,
        })
    }
}
