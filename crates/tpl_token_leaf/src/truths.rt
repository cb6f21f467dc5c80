//! Two tests in one.

ghost use Rattle.std.specs.Prelude.{◌≡◌, ◌&&◌};

/// Both tests hold.
pub fn both(one: bool, other: bool) -> bool
    ensures { result ≡ (one && other) }
{
    one && other
}
