// The colours of a card and their words.
ghost use Rattle.std.specs.Prelude.{◌≡◌, ◌<◌, [], length, take, get_or, IfSome};
ghost use Rattle.non.specs.Colours.{word_at, IsColour, HasWord};

use arrayvec::ArrayVec;

// How many colours a card can have beside blank: a set of colours has a bit for each, and one for blank.
pub const MOST_COLOURS: usize = 31;

// The word of blank, `.`.
const BLANK: u64 = 46;

// The word of black, `#`.
pub const BLACK: u64 = 35;

// The words of a card's colours, without that of blank: the first is that of bit 1. They are numbers, and no texts, since the definitions
// `read_as` and, in solve, `shown` speak of them so.
#[derive(Drop)]
pub struct Palette {
    pub words: ArrayVec<u64, MOST_COLOURS>,
}

impl Palette {
    // A palette of blank alone.
    pub fn new() -> Palette
        ensures { result.words.items ≡ [] }
    {
        Palette {
            words: ArrayVec::new(),
        }
    }

    // The word of a colour's bit; 0 where the card has no such colour.
    pub fn word_at(&self, bit: usize) -> u64
        ensures { result ≡ word_at self.now.words.items bit }
    {
        if bit == 0 {
            return BLANK;
        }
        self.words.as_slice().get(bit - 1).copied().unwrap_or(0)
    }

    // The place of a word, which is added where it is new; none where there is no room for it.
    fn place_of(&mut self, word: u64) -> Option<usize>
        ensures room { IfSome result (λ p. p < 31) }
        ensures named { IfSome result (λ p. get_or self.new.words.items p 0 ≡ word) }
        ensures kept { take (length self.old.words.items) self.new.words.items ≡ self.old.words.items }
    {
        let known = self.words.as_slice().iter().position(|&held| held == word);
        if known.is_some() {
            return known;
        }
        let place = self.words.len();
        self.words.try_push(word).ok()?;
        Some(place)
    }

    // The colour of a word, which is added where it is new; none where there is no bit for it. The words that there were keep their bits.
    pub(crate) fn know_word(&mut self, word: u64) -> Option<u32>
        ensures colour { IfSome result IsColour }
        ensures named { IfSome result (λ c. HasWord self.new.words.items c word) }
        ensures kept { take (length self.old.words.items) self.new.words.items ≡ self.old.words.items }
    {
        let place = self.place_of(word)?;
        Some(1u32 << (place + 1))
    }
}
