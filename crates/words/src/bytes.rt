// The grammar bytes in a cache, four to a word.
ghost use Rattle.std.specs.Prelude.{◌≡◌, ◌+◌, ◌≤◌, ◌<◌, length, get_or};
ghost use Rattle.std.proofs.lemmas.List.Edits.{sets};
ghost use Rattle.words.specs.Layout.{bytes_at};
ghost use Rattle.words.specs.Begin.{pack_bytes};
ghost use Rattle.words.specs.inside.Bytes.{word_of_bytes, word_at, bytes_held};

// Four bytes as a word, the first the lowest.
fn joined(a: u8, b: u8, c: u8, d: u8) -> u32
    ensures { result ≡ word_of_bytes a b c d }
{
    (a as u32) | ((b as u32) << 8) | ((c as u32) << 16) | ((d as u32) << 24)
}

// A byte, 0 past the end.
fn byte_at(bytes: &[u8], i: usize) -> u8
    ensures { result ≡ get_or bytes.now i 0 }
{
    if i < bytes.len() {
        return bytes[i];
    }
    0
}

// The word of the four bytes from byte i on.
fn word_at(bytes: &[u8], i: usize) -> u32
    requires { i < length bytes.now }
    ensures { result ≡ word_at bytes.now i }
{
    if i + 3 < bytes.len() {
        return joined(bytes[i], bytes[i + 1], bytes[i + 2], bytes[i + 3]);
    }
    let b = byte_at(bytes, i + 1);
    let c = byte_at(bytes, i + 2);
    let d = byte_at(bytes, i + 3);
    joined(bytes[i], b, c, d)
}

// Stores the bytes.
pub fn write_bytes(bytes: &[u8], cache: &mut [u32])
    requires { bytes_at + length bytes.now ≤ length cache.old }
    ensures { cache.new ≡ sets cache.old bytes_at (pack_bytes bytes.now) }
{
    let n = bytes.len();
    let mut i = 0;
    let mut k = crate::layout::BYTES_AT;
    while i < n {
        cache[k] = word_at(bytes, i);
        k += 1;
        i += 4;
    }
}

// Whether these bytes are stored.
pub fn has_bytes(bytes: &[u8], cache: &[u32]) -> bool
    ensures { result ≡ bytes_held bytes.now cache.now }
{
    let n = bytes.len();
    let mut i = 0;
    let mut k = crate::layout::BYTES_AT;
    while i < n {
        if cache.len() <= k {
            return false;
        }
        if cache[k] != word_at(bytes, i) {
            return false;
        }
        k += 1;
        i += 4;
    }
    true
}
