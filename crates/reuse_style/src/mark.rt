//! What is wrong with marks by themselves.
ghost use Rattle.std.specs.Prelude.{◌≡◌, map, option_and_then};
ghost use Rattle.std.specs.List.{list_all};
ghost use Rattle.std.specs.Option.{option_copied};
ghost use Rattle.reuse_style.specs.Marks.{is_plain, mark_fault, first_mark_fault};

use crate::marks::MarksFault;

// What is wrong with the first mark at fault.
#[tactic(auto, unfolding(crate::specs::Marks::first_mark_fault))]
pub(crate) fn first_mark_fault(mut marks: &[Option<&[u8]>]) -> Option<MarksFault>
    ensures { result ≡ first_mark_fault (map (λ mark. option_copied mark) marks.entry.now) }
{
    while let [mark, others @ ..] = marks {
        if let Some(fault) = fault_of(*mark) {
            return Some(fault);
        }
        marks = others;
    }
    None
}

// What is wrong with a mark by itself, if it is given.
fn fault_of(mark: Option<&[u8]>) -> Option<MarksFault>
    ensures { result ≡ option_and_then mark_fault (option_copied mark.entry) }
{
    match mark {
        None => None,
        Some(mark) => mark_fault(mark),
    }
}

// What is wrong with a mark by itself.
pub(crate) fn mark_fault(mark: &[u8]) -> Option<MarksFault>
    ensures { result ≡ mark_fault mark.now }
{
    if !is_plain(mark) {
        Some(MarksFault::NotPlain)
    } else if mark.is_empty() {
        Some(MarksFault::Empty)
    } else if mark.ends_with(b" ") {
        Some(MarksFault::EndsInSpace)
    } else {
        None
    }
}

// Whether a mark is ASCII that is printed.
pub(crate) fn is_plain(mark: &[u8]) -> bool
    ensures { result ≡ list_all is_plain mark.now }
{
    mark.iter().all(|b| b.is_ascii_graphic() || *b == b' ')
}
