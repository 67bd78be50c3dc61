// Whether what is lent to a batch fits together: refusal 18.
ghost use Rattle.std.specs.Prelude.{◌≡◌, ◌≤◌, length};
ghost use Rattle.batch.specs.Batches.{max_notes, total, fits?};

// The most notes of a batch.
pub const MAX_NOTES: usize = 64;

// The answers of a note: number, place and count.
pub const ANSWERS_EACH: usize = 3;

// The tokens of all notes together: more than 16 bits hold.
fn all_tokens(lengths: &[u16]) -> usize
    requires { length lengths.now ≤ max_notes }
    ensures { result ≡ total lengths.now }
{
    let mut sum = 0;
    for n in lengths {
        sum += usize::from(*n);
    }
    sum
}

// 1 to 64 notes, lengths that add up to the tokens, three answers a note, and a row that divides evenly.
pub fn fits(tokens: &[u16], lengths: &[u16], answers: &[u64], row: &[u16]) -> bool
    ensures { result ≡ fits? tokens.now lengths.now answers.now row.now }
{
    let n = lengths.len();
    if n == 0 {
        return false;
    }
    if MAX_NOTES < n {
        return false;
    }
    if all_tokens(lengths) != tokens.len() {
        return false;
    }
    if answers.len() != ANSWERS_EACH * n {
        return false;
    }
    row.len() % n == 0
}
