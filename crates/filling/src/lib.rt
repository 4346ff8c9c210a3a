// The dynamic solver: whether the first blocks fit into the first cells, and what they can give each cell, from right to left.
// The line is held in one struct, so that few arguments go through the cycle: see `held` in specs/Filling.antt. Memo and answer stay
// arguments beside it: in a struct of the three each read would load an address first that is in a register now (docs/DECISIONS.md, 24).
#![tactic(auto)]

ghost use Rattle.std.specs.Prelude.{◌≡◌, cond, ℕ, ◌+◌, ◌*◌, ◌-◌, ◌^◌, ◌≤◌, ◌<◌, ◌≢◌, eqb, IfSome, IfNone, replicate};
ghost use Rattle.rules.specs.Colour.{can_take};
ghost use Rattle.filling.specs.Filling.{held, trails, Fits};
ghost use Rattle.filling.specs.Steps.{Decides, CanShow, Added, shade, stop_of, Ask, Tell, EndsBlank, EndsBlock};

// A line as the solver holds it: its cells' colour sets, its blocks' sizes and colours, the sums for the early refusal, and how many
// cells and blocks there are. The arrays have room for the longest line; after the last block's colour stands 0, which no block has.
#[derive(Drop)]
pub struct HeldLine {
    pub cells: [u32; 64],
    pub sizes: [u32; 64],
    pub colours: [u32; 65],
    pub sums: [u32; 65],
    pub length: usize,
    pub count: usize,
}

impl HeldLine {
    // A line of no cells and no blocks: all is 0.
    pub fn new() -> Self
        ensures cells { result.cells ≡ replicate 64 0 }
        ensures sizes { result.sizes ≡ replicate 64 0 }
        ensures colours { result.colours ≡ replicate 65 0 }
        ensures sums { result.sums ≡ replicate 65 0 }
        ensures empty { (result.length ≡ 0) × (result.count ≡ 0) }
    {
        HeldLine {
            cells: [0; 64],
            sizes: [0; 64],
            colours: [0; 65],
            sums: [0; 65],
            length: 0,
            count: 0,
        }
    }
}

// Whether the cell can take the colour: the two share a bit.
fn can_be(cell: u32, colour: u32) -> bool
    ensures { result ≡ can_take cell colour }
{
    cell & colour != 0
}

// Whether a blank has to follow the block: the next one has its colour. After the last block stands the colour 0.
pub fn trail_with_space(line: &HeldLine, block: usize) -> bool
    requires { block < 64 }
    ensures { result ≡ trails (held line.now) block }
{
    line.colours[block + 1] == line.colours[block]
}

// The number as the machine counts memory. There is no `From` between the two, and callers are told the bound.
pub fn wide(x: u32) -> usize
    ensures { (result ≡ x) × (result < 2 ^ 32) }
{
    x as usize
}

// The cells that a block takes: its own, and the blank that has to follow, if there is one (`trailing`, as the crate calls the flag).
pub fn room_of(size: u32, trailing: bool) -> usize
    ensures { (result ≡ size + cond trailing 1 0) × (result ≤ 2 ^ 32) }
{
    wide(size) + usize::from(trailing)
}

// The first cell of a block that takes `room` cells up to the position, where there are so many.
fn block_start(position: usize, room: usize) -> Option<usize>
    requires { position < 64 }
    ensures fits { IfSome result (λ start. start + room ≡ position + 1) }
    ensures over { IfNone result (position + 1 < room) }
{
    (position + 1).checked_sub(room)
}

// Whether each cell from `start` up to `end` can take the colour.
fn all_can_be(line: &HeldLine, start: usize, end: usize, colour: u32) -> bool
    requires { end ≤ 64 }
    ensures { Decides (CanShow (held line.now) start end (λ i. colour)) result }
{
    (start..end).all(|i| can_be(line.cells[i], colour))
}

// Whether the block's cells, up to the position, can take its colour, and the last of them a blank where one has to follow.
fn can_place_color(
    line: &HeldLine,
    start: usize,
    position: usize,
    colour: u32,
    trailing: bool,
) -> bool
    requires { (start ≤ position) × (position < 64) }
    ensures { Decides (CanShow (held line.now) start (position + 1) (shade (stop_of position trailing) colour)) result }
{
    if trailing {
        can_be(line.cells[position], 1) && all_can_be(line, start, position, colour)
    } else {
        all_can_be(line, start, position + 1, colour)
    }
}

// Adds the colour to the cell's answer.
fn update_solved(out: &mut [u32; 64], position: usize, colour: u32)
    requires { position < 64 }
    ensures { Added out.old out.new position (position + 1) (λ i. colour) }
{
    out[position] |= colour;
}

// Adds the colour to the answer of each cell from `start` up to `end`.
fn add_all(out: &mut [u32; 64], start: usize, end: usize, colour: u32)
    requires { (start ≤ end) × (end ≤ 64) }
    ensures { Added out.old out.new start end (λ i. colour) }
{
    for cell in out[start..end].iter_mut() {
        *cell |= colour;
    }
}

// Adds what the block gives each cell up to the position: its colour, and a blank to the last of them where one has to follow.
fn set_color_block(out: &mut [u32; 64], start: usize, position: usize, colour: u32, trailing: bool)
    requires { (start ≤ position) × (position < 64) }
    ensures { Added out.old out.new start (position + 1) (shade (stop_of position trailing) colour) }
{
    if trailing {
        update_solved(out, position, 1);
        add_all(out, start, position, colour);
    } else {
        add_all(out, start, position + 1, colour);
    }
}

// What the memo holds of an answer: 2 for yes, 1 for no. 0 is not known yet. The memo is lent for bytes (`sp_solve_line`).
fn mark(solvable: bool) -> u8
    ensures { eqb result 2 ≡ solvable }
{
    if solvable { 2 } else { 1 }
}

// The answer that a byte of the memo holds, if it is known.
fn recall(byte: u8) -> Option<bool>
    ensures known { IfSome result (λ yes. (byte ≢ 0) × (eqb byte 2 ≡ yes)) }
    ensures open { IfNone result (byte ≡ 0) }
{
    match byte {
        0 => None,
        known => Some(known == 2),
    }
}

// Whether the first blocks fit into the first cells; what they give each cell is added to `out`.
#[cycle(fillings)]
fn solve_block(
    cells: usize,
    block: usize,
    line: &HeldLine,
    memo: &mut [u8],
    out: &mut [u32; 64],
) -> bool
    requires { Ask (held line.now) cells block memo.old out.old }
    ensures { Tell (held line.now) (Fits (held line.now) cells block) cells result out.old memo.new out.new }
{
    if cells == 0 {
        return block == 0;
    }
    let position = cells - 1;
    let entry = block * 64 + position;
    if let Some(known) = recall(memo[entry]) {
        return known;
    }
    let solvable = fill_matrix(position, block, line, memo, out);
    memo[entry] = mark(solvable);
    solvable
}

// The same for the cells up to the position, where the memo does not know it yet.
#[cycle(fillings)]
pub fn fill_matrix(
    position: usize,
    block: usize,
    line: &HeldLine,
    memo: &mut [u8],
    out: &mut [u32; 64],
) -> bool
    requires { Ask (held line.now) (position + 1) block memo.old out.old }
    ensures { Tell (held line.now) (Fits (held line.now) (position + 1) block) (position + 1) result out.old memo.new out.new }
{
    // too many blocks left to fit this line segment
    if position < wide(line.sums[block]) {
        return false;
    }
    // both are always tried
    let blank = fill_matrix_blank(position, block, line, memo, out);
    let colour = fill_matrix_color(position, block, line, memo, out);
    blank | colour
}

// The same with a blank at the position.
#[cycle(fillings)]
fn fill_matrix_blank(
    position: usize,
    block: usize,
    line: &HeldLine,
    memo: &mut [u8],
    out: &mut [u32; 64],
) -> bool
    requires { Ask (held line.now) (position + 1) block memo.old out.old }
    ensures { Tell (held line.now) (EndsBlank (held line.now) position block) (position + 1) result out.old memo.new out.new }
{
    if !can_be(line.cells[position], 1) {
        return false;
    }
    if !solve_block(position, block, line, memo, out) {
        return false;
    }
    update_solved(out, position, 1);
    true
}

// The same with the last block, or the blank that has to follow it, at the position.
#[cycle(fillings)]
fn fill_matrix_color(
    position: usize,
    block: usize,
    line: &HeldLine,
    memo: &mut [u8],
    out: &mut [u32; 64],
) -> bool
    requires { Ask (held line.now) (position + 1) block memo.old out.old }
    ensures { Tell (held line.now) (EndsBlock (held line.now) position block) (position + 1) result out.old memo.new out.new }
{
    if block == 0 {
        return false;
    }
    let last = block - 1;
    let colour = line.colours[last];
    let trailing = trail_with_space(line, last);
    let room = room_of(line.sizes[last], trailing);
    let Some(start) = block_start(position, room) else {
        return false;
    };
    if !can_place_color(line, start, position, colour, trailing) {
        return false;
    }
    if !solve_block(start, last, line, memo, out) {
        return false;
    }
    set_color_block(out, start, position, colour, trailing);
    true
}
