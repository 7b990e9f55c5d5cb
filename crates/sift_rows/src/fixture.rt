//! What the rows share: units by their numbers.

ghost use Rattle.std.specs.Prelude.{◌≡◌, ◌<◌};

use sift_base::UnitId;

/// The unit of a number.
pub(crate) fn unit(n: u8) -> UnitId
    requires { n < 8 }
    ensures { result ≡ n }
{
    UnitId::of(n).unwrap_or_default()
}
