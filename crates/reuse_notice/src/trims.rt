//! Bytes without those at an end that pass a test.
ghost use Rattle.std.specs.Prelude.{◌≡◌, ℕ, Bool};
ghost use Rattle.reuse_notice.specs.Tags.{drop_front, drop_end};
ghost use Rattle.reuse_notice.specs.Trims.{IsTest};

/// The bytes from the first one on that doesn't pass.
pub fn trim_start_with<F: Fn(u8) -> bool>(bytes: &[u8], passes: F) -> &[u8]
    requires { F.IsAlwaysCallable passes }
    ensures { (test : ℕ → Bool) → IsTest (F.post passes) test → result.now ≡ drop_front test bytes.now }
{
    let mut rest = bytes;
    while let [first, others @ ..] = rest {
        if !passes(*first) {
            return rest;
        }
        rest = others;
    }
    rest
}

/// The bytes up to the last one that doesn't pass.
pub fn trim_end_with<F: Fn(u8) -> bool>(bytes: &[u8], passes: F) -> &[u8]
    requires { F.IsAlwaysCallable passes }
    ensures { (test : ℕ → Bool) → IsTest (F.post passes) test → result.now ≡ drop_end test bytes.now }
{
    let mut rest = bytes;
    while let [others @ .., last] = rest {
        if !passes(*last) {
            return rest;
        }
        rest = others;
    }
    rest
}
