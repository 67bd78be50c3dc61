// Configurations in a row of words, as a state keeps them and as the members of a closed set stand: the head in one word, the stack in two.
ghost use Rattle.std.specs.Prelude.{◌≡◌};
ghost use Rattle.configurations.specs.inside.Packed.{Has, packed_at, put_config};

use crate::config::Packed;

// The words of a configuration.
pub const CONFIG_WORDS: usize = 3;

// The head of configuration k.
pub fn head(words: &[u32], k: usize) -> u32
    requires { Has words.now k }
    ensures { result ≡ (packed_at words.now k).head }
{
    words[CONFIG_WORDS * k]
}

// Configuration k.
pub fn member(words: &[u32], k: usize) -> Packed
    requires { Has words.now k }
    ensures { result ≡ packed_at words.now k }
{
    let at = CONFIG_WORDS * k;
    Packed {
        head: words[at],
        stack: crate::config::joined(words[at + 1], words[at + 2]),
    }
}

// Configuration k is c.
pub fn put(words: &mut [u32], k: usize, c: Packed)
    requires { Has words.old k }
    ensures { words.new ≡ put_config words.old k c }
{
    let at = CONFIG_WORDS * k;
    words[at] = c.head;
    words[at + 1] = crate::config::low(c.stack);
    words[at + 2] = crate::config::high(c.stack);
}
