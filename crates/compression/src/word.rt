// Words of 32 bits: the functions of FIPS 180-4, §4.1.2.
ghost use Rattle.std.specs.Prelude.{◌≡◌, ◌<◌};
ghost use Rattle.fips180.specs.Sha256.{rotr, ch, maj, Σ₀, Σ₁, σ₀, σ₁};

// §3.2: x rotated to the right by n places: the bits that leave on the right come back on the left.
// From shifts and a joined mask, a form that document 01 expects.
fn rotr(x: u32, n: u32) -> u32
    requires { (0 < n) × (n < 32) }
    ensures { result ≡ rotr n x }
{
    (x >> n) | (x << (32 - n))
}

// (4.2)
pub(crate) fn choose(x: u32, y: u32, z: u32) -> u32
    ensures { result ≡ ch x y z }
{
    (x & y) ^ (!x & z)
}

// (4.3)
pub(crate) fn majority(x: u32, y: u32, z: u32) -> u32
    ensures { result ≡ maj x y z }
{
    (x & y) ^ (x & z) ^ (y & z)
}

// (4.4)
pub(crate) fn upper0(x: u32) -> u32
    ensures { result ≡ Σ₀ x }
{
    rotr(x, 2) ^ rotr(x, 13) ^ rotr(x, 22)
}

// (4.5)
pub(crate) fn upper1(x: u32) -> u32
    ensures { result ≡ Σ₁ x }
{
    rotr(x, 6) ^ rotr(x, 11) ^ rotr(x, 25)
}

// (4.6)
pub(crate) fn lower0(x: u32) -> u32
    ensures { result ≡ σ₀ x }
{
    rotr(x, 7) ^ rotr(x, 18) ^ (x >> 3)
}

// (4.7)
pub(crate) fn lower1(x: u32) -> u32
    ensures { result ≡ σ₁ x }
{
    rotr(x, 17) ^ rotr(x, 19) ^ (x >> 10)
}
