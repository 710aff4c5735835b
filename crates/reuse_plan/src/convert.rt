//! Plans a conversion: a `REUSE.toml` in the place of `.reuse/dep5`.
ghost use Rattle.std.specs.Prelude.{◌≡◌, ◌<◌, ◌≤◌, IfOk, IfErr, Some, length, [], ◌∷◌};
ghost use Rattle.reuse_command.specs.Reading.{get, reading_of, tree_of, Files, IsOfPlan, OnlyReads, ReadsAlone};
ghost use Rattle.reuse_plan.specs.Shown.{Shows};
ghost use Rattle.reuse_store.specs.Asked.{FailsAsRead};
ghost use Rattle.reuse_change.specs.Change.{sealed_drop, sealed_make};
ghost use Rattle.reuse_command.specs.Refused.{IsNoFault, dep5_refusal};
ghost use Rattle.reuse_plan.specs.Conversion.{dep5_path, conversion_edits};
ghost use Rattle.reuse_edit.specs.Tables.{toml_path};
ghost use Rattle.reuse_edit.specs.Answered.{AnswersEdits};

use crate::tree_paths::tree_paths;
use reuse_change::{Change, NoPruning, PathText, is_among, is_clash};
use reuse_command::failure::Failure;
use reuse_command::known_path::known_path;
use reuse_command::reply::Refusal;
use reuse_dep5::{Dep5Refusal, convert_dep5};
use reuse_store::{Reading, Store, StoreFault};
use reuse_text::{Bytes, LONGEST_FILE};
use std::alloc::{AllocError, Global};
use std::slice;

/// The changes of a conversion, or its first refusal.
pub(crate) fn plan_conversion<S: Store>(
    alloc: Global,
    store: &mut S,
) -> Result<Vec<Change>, Refusal>
    ensures edits { S.honest store.new
        → AnswersEdits (tree_of (S.files store.old)) (conversion_edits (tree_of (S.files store.old))) result }
    ensures asks { ReadsAlone S.Store IsOfPlan store.old store.new result }
{
    let dep5 = known_path(alloc, ".reuse/dep5")?;
    let paths = toml_paths(alloc, store)?;
    let reading = store.read(alloc, &dep5, LONGEST_FILE)?;
    conversion_of(alloc, &paths, dep5, reading)
}

// The paths of the tree at `REUSE.toml` and beneath it: no other is looked at.
fn toml_paths<S: Store>(alloc: Global, store: &mut S) -> Result<Vec<PathText>, StoreFault>
    ensures paths { S.honest store.new
        → IfOk result (λ paths. Shows paths.items (tree_of (S.files store.old)) toml_path) }
    ensures fails { FailsAsRead S.Store store.old store.new result }
    ensures reads { OnlyReads S.Store store.old store.new }
{
    let toml = known_path(alloc, "REUSE.toml")?;
    tree_paths(alloc, store, slice::from_ref(&toml), &NoPruning)
}

// The changes of a conversion, given what was read of the dep5. `paths` show what stands at
// `REUSE.toml`.
fn conversion_of(
    alloc: Global,
    paths: &[PathText],
    dep5: PathText,
    reading: Reading,
) -> Result<Vec<Change>, Refusal>
    ensures edits { (tree : Files) → Shows paths.now tree toml_path → dep5 ≡ dep5_path
        → reading ≡ reading_of (get tree dep5_path) LONGEST_FILE
        → AnswersEdits tree (conversion_edits tree) result }
    ensures no_fault { IfErr result IsNoFault }
{
    match reading {
        Reading::Absent => Err(Refusal::NoDep5),
        Reading::TooLong => Err(Refusal::TooLong(dep5)),
        Reading::Found(bytes) => replacement(alloc, paths, dep5, bytes),
    }
}

// The changes that put a `REUSE.toml` in the place of the dep5 of these bytes.
fn replacement(
    alloc: Global,
    paths: &[PathText],
    dep5: PathText,
    bytes: Bytes,
) -> Result<Vec<Change>, Refusal>
    ensures edits { (tree : Files) → Shows paths.now tree toml_path → dep5 ≡ dep5_path → get tree dep5_path ≡ Some bytes
        → length bytes ≤ LONGEST_FILE
        → AnswersEdits tree (conversion_edits tree) result }
    ensures no_fault { IfErr result IsNoFault }
{
    let toml = known_path(alloc, "REUSE.toml")?;
    if is_among(paths, toml.as_bytes()) {
        return Err(Refusal::Exists(toml));
    }
    match convert_dep5(alloc, bytes.as_slice()) {
        Ok(text) => {
            if is_clash(alloc, paths, &toml)? {
                return Err(Refusal::Clash(toml));
            }
            let text = Bytes::from_vec(text);
            Ok(both_changes(alloc, dep5, bytes, toml, text)?)
        }
        Err(refusal) => Err(of_dep5(refusal)),
    }
}

// A refusal of the dep5 as one of the command.
fn of_dep5(refusal: Dep5Refusal) -> Refusal
    ensures { result ≡ dep5_refusal refusal }
{
    match refusal {
        Dep5Refusal::Memory => Refusal::Failed(Failure::Memory),
        refusal => Refusal::Dep5(refusal),
    }
}

fn both_changes(
    alloc: Global,
    dep5: PathText,
    old: Bytes,
    toml: PathText,
    new: Bytes,
) -> Result<Vec<Change>, AllocError>
    ensures { IfOk result (λ changes. changes.items ≡ sealed_drop dep5 old ∷ sealed_make toml new ∷ []) }
{
    let mut changes = Vec::with_capacity(alloc, 2)?;
    changes.push(Change::sealed_drop(dep5, old))?;
    changes.push(Change::sealed_make(toml, new))?;
    Ok(changes)
}
