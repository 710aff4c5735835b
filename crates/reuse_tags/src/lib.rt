//! The tags of any text, wherever they stand in it, as REUSE's tools read them: what amendments
//! leave there of what they name, and the tags amended where they stand.
#![tactic(auto)]

mod around;
mod ends;
mod everywhere;
mod ignored;
mod laws;
mod left;
mod reading;

pub use everywhere::amend_everywhere;
pub use laws::{unnamed_texts_stay, values_alone_are_amended};
pub use left::leaves;
