// Numbers in groups of seven bits, lowest group first; only the shortest form, at most three bytes, at most 65,535.
#![tactic(auto)]

ghost use Rattle.std.specs.Prelude.{◌≡◌, ℕ, ◌+◌, ◌*◌, ◌%◌, ◌<◌, length};
ghost use Rattle.number.specs.Refusals.{refusal_number, refusal_place};
ghost use Rattle.number.specs.Answers.{told};
ghost use Rattle.number.specs.Fetching.{Tallied, fetch_at};
ghost use Rattle.number.specs.Number.{number_at, limited_at, legal, symbol_at};

// Why an input is refused, each with its place. `refusal_number` of specs/Refusals gives the scope's numbers.
#[derive(Clone, Copy, Debug, PartialEq, Eq)]
pub enum Refusal {
    Unfinished(usize),
    Malformed(usize),
    OverLimit(usize),
    UnknownSymbol(usize),
    Trailing(usize),
    Unproductive(usize),
    LeftRecursive(usize),
}

// What has a number and a place in the scope's table of refusals: a refusal, or an answer that may be one.
pub trait Numbered {
    ghost scope_number: { Self → ℕ };

    ghost scope_place: { Self → ℕ };

    // The scope's number.
    fn number(&self) -> u32
        ensures { result ≡ scope_number self.now };

    // The scope's place.
    fn place(&self) -> usize
        ensures { result ≡ scope_place self.now };
}

impl Numbered for Refusal {
    ghost scope_number = { refusal_number };

    ghost scope_place = { refusal_place };

    fn number(&self) -> u32 {
        match *self {
            Refusal::Unfinished(_) => 1,
            Refusal::Malformed(_) => 2,
            Refusal::OverLimit(_) => 3,
            Refusal::UnknownSymbol(_) => 4,
            Refusal::Trailing(_) => 5,
            Refusal::Unproductive(_) => 6,
            Refusal::LeftRecursive(_) => 7,
        }
    }

    // A byte of the grammar for 1 to 5, a nonterminal for 6 and 7.
    fn place(&self) -> usize {
        match *self {
            Refusal::Unfinished(at)
            | Refusal::Malformed(at)
            | Refusal::OverLimit(at)
            | Refusal::UnknownSymbol(at)
            | Refusal::Trailing(at) => at,
            Refusal::Unproductive(a) | Refusal::LeftRecursive(a) => a,
        }
    }
}

// Of an answer both are 0 where nothing is refused.
impl<T, E: Numbered> Numbered for Result<T, E> {
    ghost scope_number = { told E.scope_number };

    ghost scope_place = { told E.scope_place };

    fn number(&self) -> u32 {
        match self {
            Ok(_) => 0,
            Err(e) => e.number(),
        }
    }

    fn place(&self) -> usize {
        match self {
            Ok(_) => 0,
            Err(e) => e.place(),
        }
    }
}

// Where reading goes on in the grammar's bytes, and how many of them were fetched. A reader starts at byte 0 with none, and `fetch` moves both on.
#[derive(Clone, Copy)]
pub struct Cursor {
    pub at: usize,
    pub count: usize,
}

// What a reader of grammar bytes answers: a number, or why there is none; and the cursor behind the last byte that it fetched.
#[derive(Clone, Copy)]
pub enum Read {
    Value(usize, Cursor),
    Refused(Refusal, Cursor),
}

// What a fetch gives: a byte, and the cursor behind it.
#[derive(Clone, Copy)]
pub struct Fetch {
    pub byte: usize,
    pub behind: Cursor,
}

// Two groups joined: the seven low bits of `low`, and `high` above them.
fn join(low: usize, high: usize) -> usize
    requires { high < 65536 }
    ensures { result ≡ low % 128 + high * 128 }
{
    (low & 127) | (high << 7)
}

// Whether v writes a token from 1 to `kinds` or a nonterminal below `nonterminals`. Below it (v - 1) / 2 of its sort are numbered, so that one comparison
// serves both sorts. Only the limit depends on the sort, and choosing it needs no branch: with one for each sort the check was slower.
fn is_legal(v: usize, kinds: usize, nonterminals: usize) -> bool
    ensures { result ≡ legal kinds nonterminals v }
{
    let limit = if v % 2 == 0 { kinds } else { nonterminals };
    if v == 0 {
        return false;
    }
    (v - 1) / 2 < limit
}

impl Cursor {
    // The byte here, which is counted. No other code fetches a byte of a grammar that is read.
    fn fetch(self, bytes: &[u8]) -> Fetch
        requires { Tallied bytes.now self × (self.at < length bytes.now) }
        ensures { result ≡ fetch_at bytes.now self }
    {
        let at = self.at;
        let byte = base::wide(bytes[at]);
        let behind = Cursor {
            at: at + 1,
            count: self.count + 1,
        };
        Fetch { byte, behind }
    }

    // The number that starts here, and the cursor behind it.
    pub fn number(self, bytes: &[u8]) -> Read
        requires { Tallied bytes.now self }
        ensures { result ≡ number_at bytes.now self.at }
    {
        let at = self.at;
        if bytes.len() <= at {
            return Read::Refused(Refusal::Unfinished(at), self);
        }
        let first = self.fetch(bytes);
        let behind1 = first.behind;
        if first.byte < 128 {
            return Read::Value(first.byte, behind1);
        }
        if bytes.len() <= behind1.at {
            return Read::Refused(Refusal::Unfinished(at), behind1);
        }
        let second = behind1.fetch(bytes);
        let behind2 = second.behind;
        if second.byte == 0 {
            return Read::Refused(Refusal::Malformed(at), behind2);
        }
        if second.byte < 128 {
            let v = join(first.byte, second.byte);
            return Read::Value(v, behind2);
        }
        if bytes.len() <= behind2.at {
            return Read::Refused(Refusal::Unfinished(at), behind2);
        }
        let third = behind2.fetch(bytes);
        let behind3 = third.behind;
        if third.byte == 0 {
            return Read::Refused(Refusal::Malformed(at), behind3);
        }
        if 3 < third.byte {
            return Read::Refused(Refusal::Malformed(at), behind3);
        }
        let upper = join(second.byte, third.byte);
        let v = join(first.byte, upper);
        Read::Value(v, behind3)
    }

    // The number that starts here if it lies from `low` to `high`.
    pub fn limited(self, bytes: &[u8], low: usize, high: usize) -> Read
        requires { Tallied bytes.now self }
        ensures { result ≡ limited_at bytes.now low high self.at }
    {
        let at = self.at;
        let n = self.number(bytes);
        let Read::Value(v, behind) = n else {
            return n;
        };
        if v < low {
            return Read::Refused(Refusal::OverLimit(at), behind);
        }
        if high < v {
            return Read::Refused(Refusal::OverLimit(at), behind);
        }
        n
    }

    // The number that starts here if it writes a symbol.
    pub fn symbol(self, bytes: &[u8], kinds: usize, nonterminals: usize) -> Read
        requires { Tallied bytes.now self }
        ensures { result ≡ symbol_at bytes.now kinds nonterminals self.at }
    {
        let at = self.at;
        let n = self.number(bytes);
        let Read::Value(v, behind) = n else {
            return n;
        };
        if !is_legal(v, kinds, nonterminals) {
            return Read::Refused(Refusal::UnknownSymbol(at), behind);
        }
        n
    }
}
