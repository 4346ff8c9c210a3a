// A card: its colours, its rows and its columns.
use crate::palette::Palette;
use arrayvec::ArrayVec;

// The two ways of a card.
#[derive(Clone, Copy)]
pub(crate) enum Way {
    Rows,
    Columns,
}

// The lines of a way as far as they were read: their number of blocks and their places in the file, and the sizes and the colours of all
// blocks, line after line.
// These lists stay apart, since a run is lent each as a list of numbers.
#[derive(Drop)]
pub struct Lines {
    // How many lines there are to be, once that is given.
    pub(crate) side: Option<usize>,
    // Whether the list has begun, which an empty list has, too.
    pub(crate) begun: bool,
    // How many empty lines the list begins with.
    empty: usize,
    counts: ArrayVec<u32, 64>,
    places: ArrayVec<u32, 64>,
    sizes: ArrayVec<u32, 4096>,
    colours: ArrayVec<u32, 4096>,
}

impl Lines {
    fn new() -> Lines {
        Lines {
            side: None,
            begun: false,
            empty: 0,
            counts: ArrayVec::new(),
            places: ArrayVec::new(),
            sizes: ArrayVec::new(),
            colours: ArrayVec::new(),
        }
    }

    // How many lines there are; 0 until that is given.
    pub fn side(&self) -> usize {
        self.side.unwrap_or(0)
    }

    // The number of blocks of each line.
    pub fn counts(&self) -> &[u32] {
        self.counts.as_slice()
    }

    // The blocks' sizes.
    pub fn sizes(&self) -> &[u32] {
        self.sizes.as_slice()
    }

    // The blocks' colours.
    pub fn colours(&self) -> &[u32] {
        self.colours.as_slice()
    }

    // The line of the file where the clue of a line stands; 0 where there is no such line.
    pub fn place(&self, line: usize) -> u32 {
        self.places.as_slice().get(line).copied().unwrap_or(0)
    }

    // Whether the list has begun and wants lines.
    pub(crate) fn is_wanted(&self) -> bool {
        self.begun && self.counts.len() < self.side()
    }

    // Takes out an empty line that a full list begins with, if there is one: the list then wants a line.
    pub(crate) fn drop_empty(&mut self) {
        if self.empty > 0 && !self.is_wanted() {
            self.empty -= 1;
            let _ = self.counts.pop_at(0);
            let _ = self.places.pop_at(0);
        }
    }

    // Counts an empty line where none but empty lines stand before it.
    pub(crate) fn count_empty(&mut self) {
        let read = self.counts.len();
        if self.empty == read {
            self.empty = read + 1;
        }
    }

    // Adds a block after those of the way. There is room for 64 of each line.
    pub(crate) fn push_block(&mut self, size: u32, colour: u32) {
        let _ = self.sizes.try_push(size);
        let _ = self.colours.try_push(colour);
    }

    // Adds a line whose blocks were added: their number, and the line's place in the file. A list that is wanted has room.
    pub(crate) fn push_line(&mut self, count: u32, place: u32) {
        let _ = self.counts.try_push(count);
        let _ = self.places.try_push(place);
    }
}

// A card: the clues of its rows and of its columns, and its colours.
#[derive(Drop)]
pub struct Card {
    pub palette: Palette,
    pub rows: Lines,
    pub columns: Lines,
}

impl Card {
    // A card of which nothing was read yet.
    pub fn new() -> Card {
        Card {
            palette: Palette::new(),
            rows: Lines::new(),
            columns: Lines::new(),
        }
    }

    pub(crate) fn lines_mut(&mut self, way: Way) -> &mut Lines {
        match way {
            Way::Rows => &mut self.rows,
            Way::Columns => &mut self.columns,
        }
    }
}
