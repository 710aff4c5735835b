//! Where the licensing information of a file goes.
use reuse_header::Style;

/// Where the licensing information of a file goes, as the definitions of what a command gives speak
/// of it.
#[derive(Debug, Drop)]
pub enum Target<'a> {
    /// Into a comment of the file, in this style.
    Inside(Style<'a>),
    /// Into its neighbour.
    InNeighbour,
    /// Nowhere: the file is skipped.
    Nowhere,
}
