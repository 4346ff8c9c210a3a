// Words and numbers in a line of a card.
ghost use Rattle.std.specs.Prelude.{◌≡◌, ◌+◌, ◌*◌, ◌≤◌, length, drop, SomeIff, IfOk};
ghost use Rattle.non.specs.Wording.{in_word, base_of, worth_of, most_of, word_in, read_as};

// The kinds of word: a number below 2^32, a key of letters, and a colour's name of letters and digits.
#[derive(Clone, Copy)]
pub(crate) enum Class {
    Number,
    Key,
    Name,
}

// Why a word has no value: it is too long, or it has no byte.
#[derive(Clone, Copy)]
pub(crate) enum NoValue {
    Long,
    Missing,
}

impl Class {
    // Whether a word of the class can have the byte.
    pub(crate) fn has(self, byte: u8) -> bool
        ensures { result ≡ in_word self byte }
    {
        match self {
            Class::Number => byte.is_ascii_digit(),
            Class::Key => byte.is_ascii_alphabetic(),
            Class::Name => byte.is_ascii_alphanumeric(),
        }
    }

    fn base(self) -> u64
        ensures { result ≡ base_of self }
    {
        match self {
            Class::Number => 10,
            Class::Key | Class::Name => 256,
        }
    }

    fn most(self) -> u64
        ensures { result ≡ most_of self }
    {
        match self {
            Class::Number => 4294967295,
            Class::Key | Class::Name => u64::MAX,
        }
    }

    // What a byte adds to a word's value: a digit of a number what it stands for, another byte itself.
    fn worth(self, byte: u8) -> u64
        ensures { result ≡ worth_of self byte }
    {
        match self {
            Class::Number => u64::from(byte.saturating_sub(b'0')),
            Class::Key | Class::Name => u64::from(byte),
        }
    }

    // The value with one byte more; none where that is too large.
    fn append(self, value: u64, byte: u8) -> Option<u64>
        ensures { SomeIff result (value * base_of self + worth_of self byte ≤ most_of self) (value * base_of self + worth_of self byte) }
    {
        value
            .checked_mul(self.base())?
            .checked_add(self.worth(byte))
            .filter(|&sum| sum <= self.most())
    }

    // What the bytes of a word of the class are read as.
    pub(crate) fn value(self, word: &[u8]) -> Result<u64, NoValue>
        ensures value { result ≡ read_as self word.now }
        ensures most { IfOk result (λ v. v ≤ most_of self) }
    {
        if word.is_empty() {
            return Err(NoValue::Missing);
        }
        let mut value = 0;
        for &byte in word {
            let Some(sum) = self.append(value, byte) else {
                return Err(NoValue::Long);
            };
            value = sum;
        }
        Ok(value)
    }

    // How many bytes of the class a text begins with.
    fn reach(self, text: &[u8]) -> usize
        ensures { result ≡ length (word_in self text.now) }
    {
        text.iter().take_while(|&&byte| self.has(byte)).count()
    }

    // The longest word of the class that a text begins with, and what stands after it.
    pub(crate) fn split(self, text: &[u8]) -> (&[u8], &[u8])
        ensures word { result.0.now ≡ word_in self text.now }
        ensures rest { result.1.now ≡ drop (length (word_in self text.now)) text.now }
    {
        text.split_at(self.reach(text))
    }
}
