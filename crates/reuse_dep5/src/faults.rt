//! The faults of a paragraph's lines.
ghost use Rattle.std.specs.Prelude.{◌≡◌, true, [], ◌∷◌, ◌++◌, IfOk, IfNone, OnOk, not};
ghost use Rattle.std.specs.List.{list_any};
ghost use Rattle.reuse_dep5.specs.SourceText.{NumberedLine};
ghost use Rattle.reuse_dep5.specs.Fields.{has_name, field_name, is_field};
ghost use Rattle.reuse_dep5.specs.Dep5.{line_cause, line_fault};
ghost use Rattle.reuse_dep5.specs.Steps.Names.{HoldsNames};

use crate::fields::{is_field_line, leading_name};
use crate::refusal::{Dep5Cause, Dep5Refusal};
use crate::source::{SourceLine, begins_with_blank};
use reuse_text::Bytes;
use std::alloc::{AllocError, Global};
use std::collections::BTreeSet;

/// Adds the name of a field line, in lower case, to the names that stand before it, and answers
/// whether it is new.
fn add_name(
    alloc: Global,
    before: &[SourceLine],
    names: &mut BTreeSet<Bytes>,
    line: &SourceLine,
) -> Result<bool, AllocError>
    requires holds { HoldsNames names.old before.now }
    requires field { is_field line.now.content ≡ true }
    ensures added { IfOk result (λ added. added ≡ not
        (list_any (λ (l : NumberedLine). has_name (field_name line.now.content) l.content) before.now)) }
    ensures holds { OnOk result (HoldsNames names.new (before.now ++ line.now ∷ [])) }
{
    let name = leading_name(line.content).to_ascii_lowercase(alloc)?;
    let added = names.insert(Bytes::from_vec(name))?;
    Ok(added)
}

/// What is wrong with a line of a paragraph, by the lines before it and the names of their fields.
fn cause_of(
    alloc: Global,
    before: &[SourceLine],
    names: &mut BTreeSet<Bytes>,
    line: &SourceLine,
) -> Result<Option<Dep5Cause>, AllocError>
    requires { HoldsNames names.old before.now }
    ensures cause { IfOk result (λ cause. cause ≡ line_cause before.now line.now.content) }
    ensures holds { IfOk result (λ cause. IfNone cause (HoldsNames names.new (before.now ++ line.now ∷ []))) }
{
    if begins_with_blank(line.content) {
        if before.is_empty() {
            return Ok(Some(Dep5Cause::Orphan));
        }
        return Ok(None);
    }
    if !is_field_line(line.content) {
        return Ok(Some(Dep5Cause::NoField));
    }
    if !add_name(alloc, before, names, line)? {
        return Ok(Some(Dep5Cause::Repeated));
    }
    Ok(None)
}

/// What is wrong with the first line with a fault.
pub(crate) fn first_line_fault(
    alloc: Global,
    lines: &[SourceLine],
) -> Result<Option<Dep5Refusal>, AllocError>
    ensures { IfOk result (λ fault. fault ≡ line_fault [] lines.now) }
{
    let mut names = BTreeSet::new(alloc);
    for (i, line) in lines.iter().enumerate() {
        if let Some(cause) = cause_of(alloc, &lines[..i], &mut names, line)? {
            return Ok(Some(Dep5Refusal::BadDep5(line.number, cause)));
        }
    }
    Ok(None)
}
