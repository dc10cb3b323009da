// The SHA-256 of bytes.
ghost use Rattle.std.specs.Prelude.{◌≡◌, IsTrue};
ghost use Rattle.dvc_base.specs.RunKey.{are_key_digits};
ghost use Rattle.run_cache.specs.Records as spec;

use hex::encode_to_slice;
use sha2::{Digest, Sha256};

// How many digits a SHA-256 has.
const DIGITS: usize = 64;

/// The SHA-256 of the bytes, in lower-case digits.
pub fn digits_of(bytes: &[u8]) -> [u8; 64]
    ensures exact { result ≡ spec.digits_of bytes.now }
    ensures digits { IsTrue (are_key_digits result) }
{
    let digest = Sha256::digest(bytes);
    let mut digits = [0; DIGITS];
    let _ = encode_to_slice(digest.as_slice(), &mut digits);
    digits
}
