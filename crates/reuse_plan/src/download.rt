//! Plans a download: a file for each licence's text.
ghost use Rattle.std.specs.Prelude.{◌≡◌, ◌<◌, IfOk, IfErr, IsSome, map, None, []};
ghost use Rattle.std.specs.List.{AllByRecursion};
ghost use Rattle.std.specs.Option.{option_copied};
ghost use Rattle.reuse_notice.specs.Sets.{set_of};
ghost use Rattle.reuse_plan.specs.DownloadPlan.{made_at, HasText};
ghost use Rattle.reuse_plan.specs.Downloads.{refusal_of_found, id_refusal, id_refusals, downloads_at};
ghost use Rattle.reuse_edit.specs.Licence.{licence_path};
ghost use Rattle.reuse_edit.specs.PathEdits.{edits_in};
ghost use Rattle.reuse_edit.specs.PathPlans.{AnswersPlans, ArePlansOf, EndsWalk};
ghost use Rattle.reuse_edit.specs.Answered.{IsRefusalOf};
ghost use Rattle.reuse_command.specs.Reading.{tree_of, Files, OnlyReads, ReadsAlone};
ghost use Rattle.reuse_plan.specs.Shown.{ShowsLicences};
ghost use Rattle.reuse_store.specs.Asked.{FailsAsRead};
ghost use Rattle.reuse_command.specs.Refused.{IsNoFault, IsRefused};

use crate::tree_paths::tree_paths;
use reuse_change::{Change, NoPruning, PathText, is_among, is_clash};
use reuse_command::choice::sorted;
use reuse_command::known_path::known_path;
use reuse_command::licence::LicenceText;
use reuse_command::reply::Refusal;
use reuse_edit::licence_file::{licence_id, licence_path, text_for};
use reuse_edit::licence_id::as_id;
use reuse_edit::path_plan::{PathPlan, Policy, all_changes};
use reuse_store::{Store, StoreFault};
use reuse_text::{Bytes, LONGEST_FILE};
use std::alloc::{AllocError, Global};
use std::slice;

/// What a download does: all refusals of its ids, or a file for each.
pub(crate) fn plan_download<S: Store>(
    alloc: Global,
    store: &mut S,
    ids: &[Bytes],
    texts: &[LicenceText],
    policy: Policy,
) -> Result<Vec<PathPlan>, Refusal>
    ensures plans { S.honest store.new → AnswersPlans policy (tree_of (S.files store.old))
        (downloads_at ids.now texts.now (tree_of (S.files store.old))) result }
    ensures asks { ReadsAlone S.Store (EndsWalk policy) store.old store.new result }
{
    let paths = licence_paths(alloc, store)?;
    download_on(alloc, &paths, ids, texts, policy)
}

// The paths of the tree at which licences stand, and what else is there: no other folder is looked
// at.
fn licence_paths<S: Store>(alloc: Global, store: &mut S) -> Result<Vec<PathText>, StoreFault>
    ensures paths { S.honest store.new
        → IfOk result (λ paths. ShowsLicences paths.items (tree_of (S.files store.old))) }
    ensures fails { FailsAsRead S.Store store.old store.new result }
    ensures reads { OnlyReads S.Store store.old store.new }
{
    let licences = known_path(alloc, "LICENSES")?;
    tree_paths(alloc, store, slice::from_ref(&licences), &NoPruning)
}

// What a download does. `paths` show what stands at the path of each licence.
fn download_on(
    alloc: Global,
    paths: &[PathText],
    ids: &[Bytes],
    texts: &[LicenceText],
    policy: Policy,
) -> Result<Vec<PathPlan>, Refusal>
    ensures plans { (tree : Files) → ShowsLicences paths.now tree
        → AnswersPlans policy tree (downloads_at ids.now texts.now tree) result }
    ensures ends { IfErr result (EndsWalk policy) }
    ensures no_fault { IfErr result IsNoFault }
{
    let ids = sorted_ids(alloc, ids)?;
    let found = match find_ids(alloc, paths, &ids, texts, policy) {
        Ok(found) => found,
        Err(refusal) => return Err(refusal),
    };
    if !found.refused.is_empty() {
        return Ok(found.refused);
    }
    let made = made_files(alloc, texts, sorted(found.made))?;
    Ok(all_changes(alloc, made)?)
}

// What is found for ids: the paths of the files that are made, and which ids are refused.
#[derive(Drop)]
struct FoundIds {
    made: Vec<PathText>,
    refused: Vec<PathPlan>,
}

// What is found for each id. `paths` show what stands at the path of each licence.
fn find_ids(
    alloc: Global,
    paths: &[PathText],
    ids: &[Bytes],
    texts: &[LicenceText],
    policy: Policy,
) -> Result<FoundIds, Refusal>
    ensures texts { IfOk result (λ found. AllByRecursion (HasText texts.now) found.made.items) }
    ensures refused { (tree : Files) → ShowsLicences paths.now tree
        → IfOk result (λ found. ArePlansOf policy tree (id_refusals tree texts.now ids.now) found.refused.items) }
    ensures made { (tree : Files) → ShowsLicences paths.now tree → id_refusals tree texts.now ids.now ≡ []
        → IfOk result (λ found. found.made.items ≡ map licence_path ids.now) }
    ensures ended { (tree : Files) → ShowsLicences paths.now tree
        → IfErr result (IsRefusalOf (edits_in (id_refusals tree texts.now ids.now))) }
    ensures ends { IfErr result (EndsWalk policy) }
    ensures no_fault { IfErr result IsNoFault }
{
    let mut made = Vec::new(alloc);
    let mut refused = Vec::new(alloc);
    for id in ids {
        match made_path(alloc, paths, id, texts) {
            Ok(path) => made.push(path)?,
            Err(refusal) => refused.push(policy.refused(refusal)?)?,
        }
    }
    Ok(FoundIds { made, refused })
}

// The ids in byte order, without repeats.
fn sorted_ids(alloc: Global, ids: &[Bytes]) -> Result<Vec<Bytes>, AllocError>
    ensures { IfOk result (λ sorted. sorted.items ≡ set_of ids.now) }
{
    let mut sorted = copied_ids(alloc, ids)?;
    sorted.sort_unstable();
    sorted.dedup();
    Ok(sorted)
}

fn copied_ids(alloc: Global, ids: &[Bytes]) -> Result<Vec<Bytes>, AllocError>
    ensures { IfOk result (λ copied. copied.items ≡ ids.now) }
{
    let mut copied = Vec::new(alloc);
    for id in ids {
        copied.push(id.try_clone(alloc)?)?;
    }
    Ok(copied)
}

// The path of the file that is made of an id's text, or why none is.
fn made_path(
    alloc: Global,
    paths: &[PathText],
    id: &Bytes,
    texts: &[LicenceText],
) -> Result<PathText, Refusal>
    ensures text { IfOk result (HasText texts.now) }
    ensures made { (tree : Files) → ShowsLicences paths.now tree
        → IfOk result (λ path. (path ≡ licence_path id.now) × (id_refusal tree texts.now id.now ≡ None)) }
    ensures refused { (tree : Files) → ShowsLicences paths.now tree
        → IfErr result (IsRefused (id_refusal tree texts.now id.now)) }
    ensures no_fault { IfErr result IsNoFault }
{
    match as_id(id.as_slice()) {
        Some(name) => path_for(
            alloc,
            paths,
            id,
            licence_path(alloc, name)?,
            text_for(texts, id.as_slice()),
        ),
        None => Err(Refusal::BadId(id.try_clone(alloc)?)),
    }
}

// The path at which what was found for an id is made a file, or why it isn't.
fn path_for(
    alloc: Global,
    paths: &[PathText],
    id: &Bytes,
    path: PathText,
    found: Option<&Bytes>,
) -> Result<PathText, Refusal>
    ensures text { IfOk result (λ made. (made ≡ path) × IsSome (option_copied found.entry)) }
    ensures made { (tree : Files) → ShowsLicences paths.now tree → path ≡ licence_path id.now
        → IfOk result (λ made. (made ≡ path) × (refusal_of_found tree id.now (option_copied found.entry) ≡ None)) }
    ensures refused { (tree : Files) → ShowsLicences paths.now tree → path ≡ licence_path id.now
        → IfErr result (IsRefused (refusal_of_found tree id.now (option_copied found.entry))) }
    ensures no_fault { IfErr result IsNoFault }
{
    let Some(text) = found else {
        return Err(Refusal::NoText(id.try_clone(alloc)?));
    };
    if text.len() > LONGEST_FILE {
        return Err(Refusal::TooLong(path));
    }
    if is_among(paths, path.as_bytes()) {
        return Err(Refusal::Exists(path));
    }
    if is_clash(alloc, paths, &path)? {
        return Err(Refusal::Clash(path));
    }
    Ok(path)
}

// A file made of the licence's text at each path.
fn made_files(
    alloc: Global,
    texts: &[LicenceText],
    paths: Vec<PathText>,
) -> Result<Vec<Change>, AllocError>
    requires { AllByRecursion (HasText texts.now) paths.items }
    ensures { IfOk result (λ changes. changes.items ≡ map (made_at texts.now) paths.items) }
{
    let mut changes = Vec::with_capacity(alloc, paths.len())?;
    for path in paths {
        let Some(text) = text_for(texts, licence_id(path.as_bytes())) else {
            unreachable!()
        };
        let new = text.try_clone(alloc)?;
        changes.push(Change::sealed_make(path, new))?;
    }
    Ok(changes)
}
