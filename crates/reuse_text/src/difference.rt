//! What differs between two texts, as one range of each. A whole text that was made anew becomes a
//! change of that range by it.
ghost use Rattle.std.specs.Prelude.{◌≡◌, ◌+◌, ◌-◌, ◌≤◌, length, take, drop};
ghost use Rattle.reuse_text.specs.Difference.{difference_of, same_front, same_end};
ghost use Rattle.reuse_text.specs.Text.{spliced};

/// A range of one text, and the range of another that stands in its place. In front of them and
/// behind them both texts are the same.
#[derive(Clone, Copy, Debug)]
pub struct Difference {
    /// Where both begin.
    pub at: usize,
    /// How many bytes the one has.
    pub old_len: usize,
    /// How many bytes the other has.
    pub new_len: usize,
}

/// What differs between two texts: neither at the first nor at the last byte of both ranges are
/// they the same.
#[tactic(auto, unfolding(crate::specs::Difference::difference_of))]
pub fn difference_of(old: &[u8], new: &[u8]) -> Difference
    ensures is { result ≡ difference_of old.now new.now }
    ensures within_old { result.at + result.old_len ≤ length old.now }
    ensures within_new { result.at + result.new_len ≤ length new.now }
    ensures made { spliced old.now result.at result.old_len (take result.new_len (drop result.at new.now)) ≡ new.now }
{
    let at = same_front(old, new);
    let old = &old[at..];
    let new = &new[at..];
    let end = same_end(old, new);
    Difference {
        at,
        old_len: old.len() - end,
        new_len: new.len() - end,
    }
}

// How many bytes both begin with.
fn same_front(old: &[u8], new: &[u8]) -> usize
    ensures is { result ≡ same_front old.now new.now }
    ensures old { result ≤ length old.now }
    ensures new { result ≤ length new.now }
{
    let most = old.len().min(new.len());
    for count in 0..most {
        if old[count] != new[count] {
            return count;
        }
    }
    most
}

// How many bytes both end with.
fn same_end(old: &[u8], new: &[u8]) -> usize
    ensures is { result ≡ same_end old.now new.now }
    ensures old { result ≤ length old.now }
    ensures new { result ≤ length new.now }
{
    let most = old.len().min(new.len());
    for count in 0..most {
        if old[old.len() - 1 - count] != new[new.len() - 1 - count] {
            return count;
        }
    }
    most
}
