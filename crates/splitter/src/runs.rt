// How far a word and a number go on.
ghost use Rattle.std.specs.Prelude.{◌≡◌, ◌+◌, ◌≤◌, length, drop};
ghost use Rattle.splitter.specs.Classes.{classes};
ghost use Rattle.splitter.specs.Items.{digit_run, number_bytes};
ghost use Rattle.splitter.specs.inside.Index.{run_of};

// The end of a run of letters and digits, and its bucket.
#[derive(Clone, Copy)]
pub struct Run {
    pub end: usize,
    pub bucket: usize,
}

// The byte of a number's point.
const POINT: u8 = 46;

// The buckets of listed words. specs/inside/Index has the same.
pub const BUCKETS: usize = 64;

// The letters and digits from a byte on.
pub fn word_run(table: &[u8], s: &[u8], from: usize) -> Run
    requires { (from ≤ length s.now) × (table.now ≡ classes) }
    ensures run { result ≡ run_of s.now from }
    ensures after { from ≤ result.end }
    ensures inside { result.end ≤ length s.now }
{
    let mut run = Run {
        end: from,
        bucket: 0,
    };
    for b in &s[from..] {
        if crate::classes::class(table, *b) < crate::classes::DIGIT {
            break;
        }
        run.bucket = (5 * run.bucket + usize::from(*b)) % BUCKETS;
        run.end += 1;
    }
    run
}

// The end of the digits from a byte on.
pub fn digits_end(table: &[u8], s: &[u8], from: usize) -> usize
    requires { (from ≤ length s.now) × (table.now ≡ classes) }
    ensures { result ≡ from + length (digit_run (drop from s.now)) }
{
    for (i, b) in s[from..].iter().enumerate() {
        if crate::classes::class(table, *b) != crate::classes::DIGIT {
            return from + i;
        }
    }
    s.len()
}

// The end of the number from a byte on: digits, and a point with further digits where one follows the point.
pub fn number_end(table: &[u8], s: &[u8], from: usize) -> usize
    requires { (from ≤ length s.now) × (table.now ≡ classes) }
    ensures { result ≡ from + length (number_bytes (drop from s.now)) }
{
    let end = digits_end(table, s, from);
    let n = s.len();
    if n <= end {
        return end;
    }
    if s[end] != POINT {
        return end;
    }
    let behind = end + 1;
    if n <= behind {
        return end;
    }
    if crate::classes::class(table, s[behind]) != crate::classes::DIGIT {
        return end;
    }
    digits_end(table, s, behind)
}
