// A text that is written from the front on.
ghost use Rattle.std.specs.Prelude.{◌≡◌, ◌∷◌, []};
ghost use Rattle.pbm.specs.Steps.{Room, Adds};

// The lent text, and how many of its bytes are written.
#[derive(Drop)]
pub(crate) struct Page<'a> {
    text: &'a mut [u8],
    end: usize,
}

impl<'a> Page<'a> {
    pub(crate) fn new(text: &'a mut [u8]) -> Page<'a>
        ensures same { result.text.ghost_name ≡ text.entry.ghost_name }
        ensures text { result.text.now ≡ text.old }
        ensures end { result.end ≡ 0 }
    {
        Page { text, end: 0 }
    }

    pub(crate) fn count(&self) -> usize
        ensures { result ≡ self.now.end }
    {
        self.end
    }

    pub(crate) fn push(&mut self, byte: u8)
        requires { Room self.old 1 }
        ensures { Adds self.old (byte ∷ []) self.new }
    {
        self.text[self.end] = byte;
        self.end += 1;
    }
}
