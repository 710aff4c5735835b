//! Which of the files beneath folders a command is asked for.
ghost use Rattle.std.specs.Prelude.{◌≡◌};
ghost use Rattle.std.specs.List.{list_any};
ghost use Rattle.std.specs.Str.{chars};
ghost use Rattle.reuse_toml.specs.GlobMatch.{matches_glob};
ghost use Rattle.reuse_notice.specs.Sets.{set_of};
ghost use Rattle.reuse_command.specs.Choice.{leaves_out, matches_folder, matches_one};
ghost use Rattle.reuse_change.specs.Path.{folders_above};
ghost use Rattle.reuse_change.specs.Listing.{is_among, is_folder_of};

use reuse_change::{FixedList, PathText, is_among};
use reuse_toml::{Glob, glob_matches};
use std::marker::Model;

/// Paths in byte order, without repeats.
#[derive(Debug, Drop)]
pub struct PathList {
    paths: Vec<PathText>,
}

impl Model for PathList {
    ghost use Rattle.std.specs.Prelude.{List, ℕ};
    ghost use Rattle.reuse_change.specs.Listing.{ArePaths};

    ghost Value = { List (List ℕ) };

    ghost view = { λ p. p.paths.items };

    ghost invariant = { λ p. ArePaths p.paths.items };
}

impl PathList {
    /// The paths of a list, which may be in any order and repeat.
    pub fn new(paths: Vec<PathText>) -> PathList
        ensures { result ≡ set_of paths.items }
    {
        PathList {
            paths: sorted(paths),
        }
    }

    // The paths, lent.
    pub fn as_slice(&self) -> &[PathText]
        ensures { result.now ≡ self.now }
    {
        &self.paths
    }

    // Whether the path is one of these.
    pub fn has(&self, path: &PathText) -> bool
        ensures { result ≡ is_among self.now path.now }
    {
        is_among(&self.paths, path.as_bytes())
    }

    // Whether one of these lies under the folder of this text.
    pub fn has_under(&self, folder: &str) -> bool
        ensures { result ≡ is_folder_of self.now folder.now }
    {
        has_one_under(&self.paths, folder)
    }
}

/// The set of the paths, in byte order.
pub fn sorted(paths: Vec<PathText>) -> Vec<PathText>
    ensures { result.items ≡ set_of paths.items }
{
    let mut paths = paths;
    paths.sort_unstable();
    paths.dedup();
    paths
}

/// Whether one of the paths lies under the folder of this text.
pub fn has_one_under(paths: &[PathText], folder: &str) -> bool
    ensures { result ≡ is_folder_of paths.now folder.now }
{
    paths.iter().any(|path| path.lies_under_text(folder))
}

/// Globs, each as in a `path` of a `REUSE.toml`.
pub type Globs = FixedList<Glob>;

// Whether one of the globs matches the path, or that of a folder above it.
pub fn matches_one(globs: &Globs, path: &PathText) -> bool
    ensures { result ≡ matches_one globs.now path.now }
{
    globs.as_slice().iter().any(|glob| leaves_out(glob, path))
}

// Whether one of the globs matches the path of the folder of this text.
pub fn matches_folder(globs: &Globs, folder: &str) -> bool
    ensures { result ≡ matches_folder globs.now folder.now }
{
    globs
        .as_slice()
        .iter()
        .any(|glob| matches_text(glob, folder))
}

pub fn leaves_out(glob: &Glob, path: &PathText) -> bool
    ensures { result ≡ leaves_out glob.now path.now }
{
    matches_text(glob, path.text()) || matches_above(glob, path)
}

fn matches_text(glob: &Glob, text: &str) -> bool
    ensures { result ≡ matches_glob glob.now (chars text.now) }
{
    glob_matches(glob, text)
}

// Whether the glob matches that of a folder above the path.
fn matches_above(glob: &Glob, path: &PathText) -> bool
    ensures { result ≡ list_any (λ folder. matches_glob glob.now (chars folder)) (folders_above path.now) }
{
    let text = path.text();
    for (at, byte) in text.as_bytes().iter().enumerate() {
        if *byte == b'/' && matches_text(glob, &text[..at]) {
            return true;
        }
    }
    false
}
