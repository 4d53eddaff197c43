// Adler-32 (RFC 1950), by which a record tells the bytes that a step left.
ghost use Rattle.std.specs.Prelude.{◌≡◌};
ghost use Rattle.replay.specs.Checksum.{adler};

// The largest prime below 65,536.
const MODULUS: u32 = 65_521;

// The checksum of some bytes: the sum of the sums above the sum.
pub fn adler32(bytes: &[u8]) -> u32
    ensures { result ≡ adler bytes.now }
{
    let mut low: u32 = 1;
    let mut high: u32 = 0;
    for byte in bytes {
        low = (low + u32::from(*byte)) % MODULUS;
        high = (high + low) % MODULUS;
    }
    high * 65_536 + low
}
