//! The rules that a tree's own file of comments lacks.
ghost use Rattle.std.specs.Prelude.{◌≡◌, IfOk, map};
ghost use Rattle.std.specs.Option.{option_copied};
ghost use Rattle.reuse_ready.specs.Additions.{has_rules, missing_rules};

use crate::additions::RuleAddition;
use reuse_style::holds;
use std::alloc::{AllocError, Global};

/// The rules whose lines a file of comments has none of.
pub(crate) fn missing_rules<'a>(
    alloc: Global,
    rules: &'a [RuleAddition],
    file: Option<&[u8]>,
) -> Result<Vec<&'a RuleAddition>, AllocError>
    ensures { IfOk result
        (λ missing. map (λ rule. rule.now) missing.items ≡ missing_rules (option_copied file.entry) rules.now) }
{
    let mut missing = Vec::new(alloc);
    for rule in rules {
        if !has_rules(rule, file) {
            missing.push(rule)?;
        }
    }
    Ok(missing)
}

// Whether a file of comments has the line of such rules.
fn has_rules(rule: &RuleAddition, file: Option<&[u8]>) -> bool
    ensures { result ≡ has_rules (option_copied file.entry) rule.now }
{
    match file {
        None => false,
        Some(bytes) => holds(bytes, rule.line.as_slice()),
    }
}
