//! Paths, listings, and changes of one file.
#![tactic(auto)]

mod change;
mod clash;
mod command_name;
mod digest;
mod direction;
mod entry_size;
mod file_range;
mod fixed_list;
pub mod layout;
mod listing;
mod moment;
mod numbers;
mod parts;
mod path;
mod pruning;

pub use change::{Change, ChangeState};
pub use clash::is_clash;
pub use command_name::CommandName;
pub use digest::{Digest, Seal};
pub use direction::Direction;
pub use entry_size::is_too_many;
pub use fixed_list::FixedList;
pub use layout::MOST_CHANGES;
pub use listing::{is_among, is_folder, is_pruned, is_wanted, paths_beneath};
pub use moment::Moment;
pub use numbers::EntryNumbers;
pub use parts::Pieces;
pub use path::{PathError, PathText};
pub use pruning::{NoPruning, Pruning};
