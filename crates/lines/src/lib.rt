// The lines of the programs: what a line of `notes` says, the part of a line that is kept while it is read, and how input is read.
#![tactic(auto)]

ghost use Rattle.std.specs.Prelude.{◌≡◌, ◌++◌, ◌∷◌, [], ◌≤◌, length, take};
ghost use Rattle.lines.specs.Line.{max_line_tokens, line_of};
ghost use Rattle.lines.specs.inside.Parsed.{note_in, line_count};

mod filling;

pub use filling::read_full;

// The most tokens of a line, the most digits of a token, and the highest token. specs/Line has the same.
pub const MAX_TOKENS: usize = 16;

const MAX_DIGITS: usize = 5;

const MAX_TOKEN: usize = 65535;

// The bytes of a line that are kept: one more than any good line has, so that a longer line is still bad.
pub const KEPT_BYTES: usize = MAX_TOKENS * (MAX_DIGITS + 1);

// Reads a line, without its end: up to MAX_TOKENS tokens, each of 1 to MAX_DIGITS digits and at most MAX_TOKEN, single blanks between. The tokens are put at
// the note's start. Answers how many, or nothing where the line is anything else.
pub fn parse(line: &[u8], note: &mut [u16]) -> Option<usize>
    requires { max_line_tokens ≤ length note.old }
    ensures note_after { note_in result note.new ≡ line_of line.now }
    ensures result_bound { line_count result ≤ max_line_tokens }
{
    if line.len() == 0 {
        return Some(0);
    }
    let mut count = 0;
    let mut digits = 0usize;
    let mut value = 0;
    for byte in line {
        if *byte == b' ' {
            if digits == 0 {
                return None;
            }
            if MAX_TOKENS <= count {
                return None;
            }
            note[count] = base::narrow(value);
            count += 1;
            digits = 0;
            value = 0;
            continue;
        }
        if *byte < b'0' {
            return None;
        }
        if b'9' < *byte {
            return None;
        }
        if MAX_DIGITS <= digits {
            return None;
        }
        value = 10 * value + usize::from(*byte - b'0');
        if MAX_TOKEN < value {
            return None;
        }
        digits += 1;
    }
    if digits == 0 {
        return None;
    }
    if MAX_TOKENS <= count {
        return None;
    }
    note[count] = base::narrow(value);
    Some(count + 1)
}

// Keeps one more byte of a line, if there is room, and answers how many are kept.
pub fn keep(line: &mut [u8], kept: usize, byte: u8) -> usize
    requires { kept ≤ length line.old }
    ensures line_after { take result line.new ≡ take (length line.old) (take kept line.old ++ (byte ∷ [])) }
    ensures upper_bound { result ≤ length line.old }
{
    if line.len() <= kept {
        return kept;
    }
    line[kept] = byte;
    kept + 1
}
