ghost use Rattle.std.specs.Prelude.{◌≡◌, ◌+◌, ◌*◌, ◌^◌};
ghost use Rattle.mj_ready.specs.Due.{is_before};

/// A moment in milliseconds, and a key.
pub(crate) type Pair = (u64, u64);

const _: () = prove!(size_of::<Pair>() == 16);

/// Whether the first pair comes before the second one: it is due earlier, or at the same moment with the lesser key.
pub(crate) fn comes_before(a: Pair, b: Pair) -> bool
    ensures { result ≡ is_before a b }
{
    // One comparison, since which of two rows comes first can't be predicted.
    rank(a) < rank(b)
}

/// The pair as one number.
fn rank(pair: Pair) -> u128
    ensures { result ≡ pair.0 * 2 ^ 64 + pair.1 }
{
    (u128::from(pair.0) << 64) + u128::from(pair.1)
}
