//! The open containers, one bit a level: a set bit is an object.
ghost use Rattle.std.specs.Prelude.{◌≡◌, ◌+◌, ◌*◌, ◌-◌, ◌<◌, ◌∷◌, length};
ghost use Rattle.wx_json.specs.Levels.{kind_of, kinds_of};

/// Whether the level with this number is an object.
#[inline(always)]
pub(crate) fn kind_at(kinds: &[u64], at: usize) -> bool
    requires { at < 64 * length kinds.now }
    ensures { result ≡ kind_of kinds.now at }
{
    (kinds[at / 64] >> (at % 64)) % 2 == 1
}

/// Puts a level on top of those below `at`.
#[inline(always)]
pub(crate) fn put_kind(kinds: &mut [u64], at: usize, object: bool)
    requires { at < 64 * length kinds.old }
    ensures { kinds_of kinds.new (at + 1) ≡ object ∷ kinds_of kinds.old at }
{
    let mask: u64 = 1 << (at % 64);
    let word = kinds[at / 64];
    kinds[at / 64] = if object { word | mask } else { word & !mask };
}
