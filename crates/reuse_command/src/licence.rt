//! What a download is given: ids of licences, and the texts that were found for them.
use reuse_change::FixedList;
use reuse_text::Bytes;

/// What was found for the id of a licence: its text, or none.
#[derive(Debug, Drop)]
pub struct LicenceText {
    pub id: Bytes,
    pub text: Option<Bytes>,
}

/// What was found for licences, in any order. The first that is given for an id counts.
pub type LicenceTexts = FixedList<LicenceText>;

/// The ids that a command is given, in any order.
pub type Ids = FixedList<Bytes>;
