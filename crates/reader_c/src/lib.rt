// The pass over a grammar's bytes as a call for the tests: how many bytes it fetched, whatever it found.
#![tactic(auto)]

ghost use Rattle.std.specs.Prelude.{◌≡◌};
ghost use Rattle.reader.specs.Counting.{bytes_fetched};

use number::Read;

// Counts the bytes that the check of a grammar fetches.
#[unsafe(no_mangle)]
pub extern "C" fn reader_count(grammar: &[u8]) -> u64
    ensures { result ≡ bytes_fetched grammar.now }
{
    let mut tables = [0u16; grammar::TABLE_WORDS];
    let answer = reader::read_grammar(grammar, &mut tables);
    match answer {
        Read::Refused(_, end) => end.count as u64,
        Read::Value(_, end) => end.count as u64,
    }
}
