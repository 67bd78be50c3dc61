// The class of each byte value.
ghost use Rattle.std.specs.Prelude.{◌≡◌};
ghost use Rattle.splitter.specs.Classes.{classes, class_of, mark_kind};

// The classes, in an order that makes what may stand in a word the highest ones. specs/Classes has the same.
pub const FOREIGN: usize = 0;

pub const BLANK: usize = 1;

pub const MARK: usize = 2;

pub const DIGIT: usize = 3;

pub const LETTER: usize = 4;

// The one byte of class BLANK.
pub const SPACE: u8 = 32;

// The class of each byte value: specs/Classes has the same list, and proofs/TableLaws what it says. A constant array is laid out anew wherever it is
// read, so `split` has it once and lends it.
pub const CLASSES: [u8; 256] = [
    0, 0, 0, 0, 0, 0, 0, 0, 0, 0, 0, 0, 0, 0, 0, 0, 0, 0, 0, 0, 0, 0, 0, 0, 0, 0, 0, 0, 0, 0, 0, 0,
    1, 2, 2, 2, 2, 2, 2, 2, 2, 2, 2, 2, 2, 2, 2, 2, 3, 3, 3, 3, 3, 3, 3, 3, 3, 3, 2, 2, 2, 2, 2, 2,
    2, 4, 4, 4, 4, 4, 4, 4, 4, 4, 4, 4, 4, 4, 4, 4, 4, 4, 4, 4, 4, 4, 4, 4, 4, 4, 4, 2, 2, 2, 2, 2,
    2, 4, 4, 4, 4, 4, 4, 4, 4, 4, 4, 4, 4, 4, 4, 4, 4, 4, 4, 4, 4, 4, 4, 4, 4, 4, 4, 2, 2, 2, 2, 0,
    0, 0, 0, 0, 0, 0, 0, 0, 0, 0, 0, 0, 0, 0, 0, 0, 0, 0, 0, 0, 0, 0, 0, 0, 0, 0, 0, 0, 0, 0, 0, 0,
    0, 0, 0, 0, 0, 0, 0, 0, 0, 0, 0, 0, 0, 0, 0, 0, 0, 0, 0, 0, 0, 0, 0, 0, 0, 0, 0, 0, 0, 0, 0, 0,
    0, 0, 0, 0, 0, 0, 0, 0, 0, 0, 0, 0, 0, 0, 0, 0, 0, 0, 0, 0, 0, 0, 0, 0, 0, 0, 0, 0, 0, 0, 0, 0,
    0, 0, 0, 0, 0, 0, 0, 0, 0, 0, 0, 0, 0, 0, 0, 0, 0, 0, 0, 0, 0, 0, 0, 0, 0, 0, 0, 0, 0, 0, 0, 0,
];

// The class of a byte, by the table.
pub fn class(table: &[u8], b: u8) -> usize
    requires { table.now ≡ classes }
    ensures { result ≡ class_of b }
{
    usize::from(table[usize::from(b)])
}

// The kind of a mark: 3 to 34 in byte order.
pub fn mark_kind(b: u8) -> u8
    ensures { result ≡ mark_kind b }
{
    if 122 < b {
        return b - 92;
    }
    if 90 < b {
        return b - 66;
    }
    if 57 < b {
        return b - 40;
    }
    if 32 < b {
        return b - 30;
    }
    0
}
