// What a run reports: the numbers of the cells that changed.
ghost use Rattle.std.specs.Prelude.{◌∷◌, [], ◌<◌, length};
ghost use Rattle.grid.specs.Grid.{Reports};

// The entries so far: the first `count` numbers of a lent list.
#[derive(Drop)]
pub struct Report<'a> {
    pub cells: &'a mut [u32],
    pub count: usize,
}

impl Report<'_> {
    // Reports a cell.
    pub fn push(&mut self, cell: u32)
        requires { self.old.count < length self.old.cells.now }
        ensures { Reports self.old (cell ∷ []) self.new }
    {
        self.cells[self.count] = cell;
        self.count += 1;
    }
}
