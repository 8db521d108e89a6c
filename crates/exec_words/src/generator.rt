//! The generator of numbers by which a worker picks where it begins to look for what others have.

ghost use Rattle.std.specs.Prelude.{◌≡◌};
ghost use Rattle.exec_words.specs.Generator.{stirred};

/// The next number, from the one before. Zero stays zero, so the caller must begin with another. Ports the xorshift of
/// the `Searcher` of `commonware_runtime`'s `iouring::idle`.
pub fn stirred(seed: u32) -> u32
    ensures { result ≡ stirred seed }
{
    let mut rng = seed;
    rng ^= rng << 13;
    rng ^= rng >> 17;
    rng ^= rng << 5;
    rng
}
