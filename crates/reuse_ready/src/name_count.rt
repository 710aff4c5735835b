//! The names of paths, counted.
ghost use Rattle.std.specs.Prelude.{◌≡◌, ◌<◌, ◌+◌, ◌^◌, IfOk, OnOk, Some, None, ◌++◌, ◌∷◌, [], List, ℕ, length};
ghost use Rattle.std.specs.Str.{str_to_ascii_lowercase};
ghost use Rattle.std.specs.Ordering.{nat_cmp};
ghost use Rattle.std.specs.Cmp.Lexicographic.{slice_cmp};
ghost use Rattle.std.specs.BTreeMap.{get};
ghost use Rattle.std.specs.Map.{values_of};
ghost use Rattle.reuse_ready.specs.Ready.{ready_style};
ghost use Rattle.reuse_ready.specs.Tally.{name_of, tally};
ghost use Rattle.reuse_ready.specs.Counted.{IsCounted};

use crate::tables::ready_style;
use reuse_change::PathText;
use reuse_style::ending;
use reuse_text::{Bytes, last_part};
use std::alloc::{AllocError, Global};
use std::collections::BTreeMap;

/// A name of some paths, with how many of them have it.
#[derive(Debug, Drop)]
pub struct NameCount {
    /// As the first of the paths spells it.
    pub name: Bytes,
    /// How many of the paths have it, where letters of either case are the same.
    pub count: usize,
    /// Its ready style.
    pub style: Option<Bytes>,
}

/// The names of paths, each once, in byte order of the names in lower case.
pub fn tally(alloc: Global, paths: &[PathText]) -> Result<Vec<NameCount>, AllocError>
    ensures { IfOk result (λ rows. rows.items ≡ tally paths.now) }
{
    let mut rows = BTreeMap::new(alloc);
    for path in paths {
        count_name(alloc, &mut rows, name_of(path.as_bytes()))?;
    }
    values_of(alloc, rows)
}

// The values of a map, in the order of their keys.
fn values_of(alloc: Global, rows: BTreeMap<Bytes, NameCount>) -> Result<Vec<NameCount>, AllocError>
    ensures { IfOk result (λ values. values.items ≡ values_of rows.entries) }
{
    rows.into_values().collect(alloc)
}

/// The name of a path: its last part where the ready tables have that, else what stands there from
/// the last dot on.
pub fn name_of(path: &[u8]) -> &[u8]
    ensures { result.now ≡ name_of path.now }
{
    let part = last_part(path);
    if ready_style(part).is_some() {
        part
    } else {
        ending(part)
    }
}

// Counts one more name.
fn count_name(
    alloc: Global,
    rows: &mut BTreeMap<Bytes, NameCount>,
    name: &[u8],
) -> Result<(), AllocError>
    requires { (names : List (List ℕ)) × IsCounted rows.old names × (length names + 1 < 2 ^ 64) }
    ensures { (names : List (List ℕ)) → IsCounted rows.old names
        → OnOk result (IsCounted rows.new (names ++ name.now ∷ [])) }
{
    let lowered = Bytes::from_vec(name.to_ascii_lowercase(alloc)?);
    if let Some(row) = rows.get_mut(&lowered) {
        row.count += 1;
        return Ok(());
    }
    let row = first_row(alloc, name)?;
    let Ok(_) = rows.insert(lowered, row) else {
        return Err(AllocError);
    };
    Ok(())
}

// The row of a name that is there once.
fn first_row(alloc: Global, name: &[u8]) -> Result<NameCount, AllocError>
    ensures { IfOk result (λ row. row ≡ record { name = name.now; count = 1; style = ready_style name.now }) }
{
    let style = match ready_style(name) {
        None => None,
        Some(style) => Some(Bytes::from_slice(alloc, style.as_bytes())?),
    };
    Ok(NameCount {
        name: Bytes::from_slice(alloc, name)?,
        count: 1,
        style,
    })
}
