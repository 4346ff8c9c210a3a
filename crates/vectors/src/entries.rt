// The entries of the lists that a replayed call reads and writes, of any width.
ghost use Rattle.std.specs.Prelude.{◌≡◌, ℕ, ◌≤◌};
ghost use Rattle.vectors.specs.Fillers.{filler_at, byte_at};

// An entry is a number. A list of entries that a call is lent to write is filled before, entry by entry, with what it could take for its own or
// what it would not write: the filler, which may go by a turn.
pub trait Entry: Copy {
    // The number that an entry is, the largest one, and the filler at a turn and an index.
    ghost value: { Self → ℕ };

    ghost MOST: { ℕ };

    ghost entry_at: { ℕ → ℕ → ℕ };

    const MOST: u64;

    fn from_number(number: u64) -> Self
        requires { number ≤ MOST }
        ensures { value result ≡ number };

    fn number(self) -> u64
        ensures { result ≡ value self };

    fn filler(turn: usize, index: usize) -> Self
        ensures { value result ≡ entry_at turn index };
}

// A byte: 1, 2 and 255 in turn. The first of them goes by `turn`.
impl Entry for u8 {
    ghost value = { λ entry. entry };

    ghost MOST = { 255 };

    ghost entry_at = { byte_at };

    const MOST: u64 = 255;

    fn from_number(number: u64) -> u8 {
        number as u8
    }

    fn number(self) -> u64 {
        self as u64
    }

    fn filler(turn: usize, index: usize) -> u8 {
        let bytes = [1u8, 2, 255];
        bytes[(turn % 3 + index % 3) % 3]
    }
}

// A cell, a code, a size or a colour: large numbers, each another than its neighbours.
impl Entry for u32 {
    ghost value = { λ entry. entry };

    ghost MOST = { 4294967295 };

    ghost entry_at = { λ turn. filler_at };

    const MOST: u64 = 4294967295;

    fn from_number(number: u64) -> u32 {
        number as u32
    }

    fn number(self) -> u64 {
        self as u64
    }

    fn filler(_turn: usize, index: usize) -> u32 {
        4000000000 - (index % 65536) as u32
    }
}

// A sum: the same numbers.
impl Entry for u64 {
    ghost value = { λ entry. entry };

    ghost MOST = { 18446744073709551615 };

    ghost entry_at = { λ turn. filler_at };

    const MOST: u64 = u64::MAX;

    fn from_number(number: u64) -> u64 {
        number
    }

    fn number(self) -> u64 {
        self
    }

    fn filler(turn: usize, index: usize) -> u64 {
        u32::filler(turn, index).number()
    }
}
