//! The licensing information of a file.
ghost use Rattle.std.specs.Prelude.{◌≡◌, ◌++◌, IfOk, OnOk, map, filter_map};
ghost use Rattle.std.specs.Option.{option_map, option_to_list};
ghost use Rattle.reuse_notice.specs.Sets.{IsSorted};
ghost use Rattle.reuse_notice.specs.Tags.{tag_of, drop_front, drop_end};
ghost use Rattle.reuse_notice.specs.Contents.{notice_text, contributor_value, licence_value, is_blank_content};
ghost use Rattle.reuse_notice.specs.Contents.{untagged, with_content, with_free};
ghost use Rattle.reuse_notice.specs.TagViews.{tag_view};

use crate::adding::Additions;
use crate::blanks::is_all_filler;
use crate::merging::merge_notices;
use crate::tags::{Tag, read_tag};
use crate::text_lists::{TextSet, Texts, are_same};
use reuse_text::Bytes;
use std::alloc::{AllocError, Global};

/// The licensing information of a file: the texts of its notices, its contributors and its
/// licences, and the contents without a tag.
#[derive(Debug, Drop)]
pub struct Info {
    notices: TextSet,
    contributors: TextSet,
    licences: TextSet,
    free: Texts,
}

impl Info {
    ghost use Rattle.reuse_notice.specs.Infos.{info_of, union_of, merged_of, says_the_same, says_nothing};

    /// The information in the contents of a comment whose style has the punctuation `punct`.
    pub fn read(alloc: Global, contents: &[&[u8]], punct: &[u8]) -> Result<Info, AllocError>
        ensures { IfOk result (λ info. info ≡ info_of punct.now (map (λ c. c.now) contents.now)) }
    {
        let found = find_tags(alloc, contents, punct)?;
        Ok(Info {
            notices: TextSet::new(found.notices),
            contributors: TextSet::new(found.contributors),
            licences: TextSet::new(found.licences),
            free: Texts::new(without_blank_end(found.free, punct)),
        })
    }

    /// The information with the additions. The free contents stay.
    pub fn union(self, alloc: Global, additions: &Additions) -> Result<Info, AllocError>
        ensures { IfOk result (λ info. info ≡ union_of self additions.now) }
    {
        let Info {
            notices,
            contributors,
            licences,
            free,
        } = self;
        Ok(Info {
            notices: notices.union(alloc, additions.notices.as_slice())?,
            contributors: contributors.union(alloc, additions.contributors.as_slice())?,
            licences: licences.union(alloc, additions.licences.as_slice())?,
            free,
        })
    }

    /// The information with the notices of each holder merged into one, whose years run from the
    /// lowest to the highest, and whose prefix is that of the byte-least of the added notices of
    /// the holder, or else of the byte-least of all. Notices whose merged text wouldn't read back
    /// so stay.
    pub fn merge(self, alloc: Global, additions: &Additions) -> Result<Info, AllocError>
        ensures { IfOk result (λ info. info ≡ merged_of self additions.now) }
    {
        let notices = merge_notices(alloc, self.notices.as_slice(), additions.notices.as_slice())?;
        Ok(Info { notices, ..self })
    }

    /// The same free contents with other tags.
    pub fn with_tags(
        &self,
        alloc: Global,
        notices: TextSet,
        contributors: TextSet,
        licences: TextSet,
    ) -> Result<Info, AllocError>
        ensures { IfOk result (λ info. info
            ≡ record { notices = notices; contributors = contributors; licences = licences; free = self.now.free }) }
    {
        Ok(Info {
            notices,
            contributors,
            licences,
            free: self.free.copy(alloc)?,
        })
    }

    /// Whether two say the same notices, contributors and licences.
    pub fn says_the_same(&self, other: &Info) -> bool
        ensures { result ≡ says_the_same self.now other.now }
    {
        are_same(self.notices.as_slice(), other.notices.as_slice())
            && are_same(self.contributors.as_slice(), other.contributors.as_slice())
            && are_same(self.licences.as_slice(), other.licences.as_slice())
    }

    /// Whether there is no notice, no contributor and no licence.
    pub fn says_nothing(&self) -> bool
        ensures { result ≡ says_nothing self.now }
    {
        self.notices.as_slice().is_empty()
            && self.contributors.as_slice().is_empty()
            && self.licences.as_slice().is_empty()
    }

    /// The texts of the notices, in byte order.
    pub fn notices(&self) -> &[Bytes]
        ensures texts { result.now ≡ self.now.notices }
        ensures sorted { IsSorted result.now }
    {
        self.notices.as_slice()
    }

    /// The contributors, in byte order.
    pub fn contributors(&self) -> &[Bytes]
        ensures texts { result.now ≡ self.now.contributors }
        ensures sorted { IsSorted result.now }
    {
        self.contributors.as_slice()
    }

    /// The licences, in byte order.
    pub fn licences(&self) -> &[Bytes]
        ensures texts { result.now ≡ self.now.licences }
        ensures sorted { IsSorted result.now }
    {
        self.licences.as_slice()
    }

    /// The contents without a tag, in order.
    pub fn free(&self) -> &[Bytes]
        ensures { result.now ≡ self.now.free }
    {
        self.free.as_slice()
    }
}

// The tags of contents, and the contents without one from the first on that is not blank.
#[derive(Drop)]
struct Found {
    notices: Vec<Bytes>,
    contributors: Vec<Bytes>,
    licences: Vec<Bytes>,
    free: Vec<Bytes>,
}

impl Found {
    // Adds the tag of one more content, or the content itself.
    fn add(&mut self, alloc: Global, content: &[u8], punct: &[u8]) -> Result<(), AllocError>
        ensures notices { OnOk result (self.new.notices.items ≡ self.old.notices.items ++ option_to_list
            (notice_text (tag_of punct.now content.now))) }
        ensures contributors { OnOk result (self.new.contributors.items ≡ self.old.contributors.items ++ option_to_list
            (contributor_value (tag_of punct.now content.now))) }
        ensures licences { OnOk result (self.new.licences.items ≡ self.old.licences.items ++ option_to_list
            (licence_value (tag_of punct.now content.now))) }
        ensures free { OnOk result (self.new.free.items ≡ with_free punct.now self.old.free.items content.now) }
    {
        self.add_tag(alloc, read_tag(content, punct), content, punct)
    }

    // The same, where the content's tag is known.
    fn add_tag(
        &mut self,
        alloc: Global,
        tag: Option<Tag<'_>>,
        content: &[u8],
        punct: &[u8],
    ) -> Result<(), AllocError>
        ensures notices { OnOk result (self.new.notices.items ≡ self.old.notices.items ++ option_to_list
            (notice_text (option_map tag_view tag.entry))) }
        ensures contributors { OnOk result (self.new.contributors.items ≡ self.old.contributors.items ++ option_to_list
            (contributor_value (option_map tag_view tag.entry))) }
        ensures licences { OnOk result (self.new.licences.items ≡ self.old.licences.items ++ option_to_list
            (licence_value (option_map tag_view tag.entry))) }
        ensures free { OnOk result (self.new.free.items ≡ with_content
            (option_map tag_view tag.entry) punct.now self.old.free.items content.now) }
    {
        match tag {
            Some(Tag::Notice(notice)) => {
                self.notices.push(Bytes::from_slice(alloc, notice.text)?)?;
            }
            Some(Tag::Contributor(value)) => {
                self.contributors.push(Bytes::from_slice(alloc, value)?)?;
            }
            Some(Tag::Licence(value)) => {
                self.licences.push(Bytes::from_slice(alloc, value)?)?;
            }
            None => {
                if !self.free.is_empty() || !is_all_filler(content, punct) {
                    self.free.push(Bytes::from_slice(alloc, content)?)?;
                }
            }
        }
        Ok(())
    }
}

// The tags of contents, and the contents without one.
fn find_tags(alloc: Global, contents: &[&[u8]], punct: &[u8]) -> Result<Found, AllocError>
    ensures notices { IfOk result
        (λ found. found.notices.items ≡ filter_map (λ c. notice_text (tag_of punct.now c.now)) contents.now) }
    ensures contributors { IfOk result (λ found. found.contributors.items ≡ filter_map
        (λ c. contributor_value (tag_of punct.now c.now)) contents.now) }
    ensures licences { IfOk result
        (λ found. found.licences.items ≡ filter_map (λ c. licence_value (tag_of punct.now c.now)) contents.now) }
    ensures free { IfOk result (λ found. found.free.items ≡ drop_front (is_blank_content punct.now)
        (untagged punct.now (map (λ c. c.now) contents.now))) }
{
    let mut found = Found {
        notices: Vec::new(alloc),
        contributors: Vec::new(alloc),
        licences: Vec::new(alloc),
        free: Vec::new(alloc),
    };
    for content in contents {
        found.add(alloc, content, punct)?;
    }
    Ok(found)
}

// The texts up to the last one that is not blank.
fn without_blank_end(texts: Vec<Bytes>, punct: &[u8]) -> Vec<Bytes>
    ensures { result.items ≡ drop_end (is_blank_content punct.now) texts.items }
{
    let mut texts = texts;
    let mut len = texts.len();
    while len > 0 && is_all_filler(texts[len - 1].as_slice(), punct) {
        len -= 1;
    }
    texts.truncate(len);
    texts
}
