// Casts, single bits of a word and words as sets, each a tiny function whose contract is arithmetic: no proof above this crate sees a shift or a mask. And
// the zeros behind what is written into a row.
#![tactic(auto)]

ghost use Rattle.std.specs.Prelude.{◌≡◌, true, ◌++◌, ◌-◌, ◌^◌, ◌≤◌, ◌<◌, length, take, replicate};
ghost use Rattle.std.specs.Int.Bits.{bit_xor};
ghost use Rattle.std.specs.Iterator.{at_most};
ghost use Rattle.base.specs.Bits.{word_bits, test_bit, set_bit, is_subset, HighestIs, GivesHighest};

// The bits of a word; a word is a set of numbers below that. specs/Bits has the same.
pub const WORD_BITS: usize = 32;

// A byte as a number.
pub fn wide(b: u8) -> usize
    ensures { result ≡ b }
{
    usize::from(b)
}

// A word of 16 bits as a number.
pub fn index(x: u16) -> usize
    ensures { result ≡ x }
{
    usize::from(x)
}

// A number that fits a word of 16 bits.
pub fn narrow(x: usize) -> u16
    requires { x < 65536 }
    ensures { result ≡ x }
{
    x as u16
}

// Whether bit k of x is set.
pub fn has(x: u32, k: usize) -> bool
    requires { k < word_bits }
    ensures { result ≡ test_bit x k }
{
    (x >> k) & 1 == 1
}

// x with bit k set.
pub fn with(x: u32, k: usize) -> u32
    requires { k < word_bits }
    ensures { result ≡ set_bit x k }
{
    x | (1u32 << k)
}

// A number as a word.
pub fn word(x: usize) -> u32
    requires { x < 2 ^ word_bits }
    ensures { result ≡ x }
{
    x as u32
}

// A word as a number.
pub fn number(x: u32) -> usize
    ensures { result ≡ x }
{
    x as usize
}

// The set of the numbers below n.
pub fn below(n: usize) -> u32
    requires { n ≤ word_bits }
    ensures { result ≡ 2 ^ n - 1 }
{
    word((1usize << n) - 1)
}

// Whether every member of the set x is one of y.
pub fn subset(x: u32, y: u32) -> bool
    ensures { result ≡ is_subset x y }
{
    x | y == y
}

// Every bit of x turned.
pub fn opposite(x: u32) -> u32
    ensures { result ≡ bit_xor x (2 ^ word_bits - 1) }
{
    x ^ u32::MAX
}

// The highest member of a set that has one.
pub fn highest(x: u32) -> usize
    requires { 0 < x }
    ensures { HighestIs x result }
{
    WORD_BITS - 1 - number(u32::leading_zeros(x))
}

// The set x without its member k.
pub fn without(x: u32, k: usize) -> u32
    requires { (k < word_bits) × (test_bit x k ≡ true) }
    ensures { result ≡ bit_xor x (2 ^ k) }
{
    x ^ (1u32 << k)
}

// The members of a set that are still to come, the highest first.
#[derive(Drop)]
pub struct HighestFirst {
    left: u32,
}

impl Iterator for HighestFirst {
    type Item = usize;

    ghost next_gives = { λ s r t. GivesHighest s.left r t.left };

    ghost remaining = { λ s. at_most s.left };

    fn next(&mut self) -> Option<usize> {
        if self.left == 0 {
            return None;
        }
        let a = highest(self.left);
        self.left = without(self.left, a);
        Some(a)
    }
}

// The members of a set, the highest first.
pub fn members(set: u32) -> HighestFirst
    ensures { result.left ≡ set }
{
    HighestFirst { left: set }
}

// Zeros from entry `from` on.
pub fn clear_from(row: &mut [u16], from: usize)
    requires { from ≤ length row.old }
    ensures { row.new ≡ take from row.old ++ replicate (length row.old - from) 0 }
{
    row[from..].fill(0);
}
