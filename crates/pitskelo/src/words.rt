// 64-bit words in buffers of bytes, little-endian.
ghost use Rattle.std.specs.Prelude.{◌*◌, ◌≤◌, length};
ghost use Rattle.pitskelo.specs.Storing.{Stored};

use word::store64;

// Stores the first n words from the first byte on.
pub fn store_words(bytes: &mut [u8], words: &[u64], n: usize)
    requires { (8 * n ≤ length bytes.old) × (n ≤ length words.now) }
    ensures { Stored bytes.old words.now n bytes.new }
{
    for (k, word) in words[..n].iter().enumerate() {
        store64(bytes, 8 * k, *word);
    }
}
