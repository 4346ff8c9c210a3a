// Where a run begins: all lines by their distance from the middle, or the two lines through a point.
ghost use Rattle.std.specs.Prelude.{◌≡◌, ◌+◌, ◌<◌, ◌≤◌, length};
ghost use Rattle.rules.specs.Run.{full_stack, point_stack};
ghost use Rattle.rules.specs.Refusal.{stack_size};
ghost use Rattle.stack.specs.Stack.{Kept, Starts};
ghost use Rattle.stack.specs.Steps.{code_at, around, Piled};

use crate::Stack;
use crate::codes::code_of;
use rules::{ColumnIndex, LinePosition, RowIndex};

impl<'a> Stack<'a> {
    // Pushes the line with this index, if there is one. The first of these lines has the code `base`.
    fn push_at(&mut self, index: usize, sides: usize, base: u32)
        requires { (sides ≤ 64) × (base ≤ 64) × (self.old.count + length (code_at base sides index) ≤ length self.old.codes.now) }
        ensures { Piled self.old (code_at base sides index) self.new }
    {
        if index < sides {
            self.push_code(index as u32 + base);
        }
    }

    // Pushes the lines at a distance from the middle, the lower one first.
    fn push_around(&mut self, sides: usize, base: u32, distance: usize)
        requires { (sides ≤ 64) × (base ≤ 64) × (self.old.count + length (around base sides distance) ≤ length self.old.codes.now) }
        ensures { Piled self.old (around base sides distance) self.new }
    {
        let middle = sides / 2;
        if middle < distance {
            return;
        }
        self.push_at(middle - distance, sides, base);
        if 0 < distance {
            self.push_at(middle + distance, sides, base);
        }
    }

    // All lines, the middle ones first; none is farther than 32. A run takes from the end, so the farthest are on top.
    pub fn full(width: usize, height: usize, codes: &'a mut [u32]) -> Stack<'a>
        requires { (width ≤ 64) × (height ≤ 64) × (stack_size ≤ length codes.old) }
        ensures same { result.codes.ghost_name ≡ codes.entry.ghost_name }
        ensures starts { Starts (full_stack width height) codes.old result }
        ensures count { result.count ≡ width + height }
    {
        let mut stack = Stack { codes, count: 0 };
        for distance in 0..33 {
            stack.push_around(width, 0, distance);
            stack.push_around(height, 64, distance);
        }
        stack
    }

    // Column x, and row y on top.
    pub fn point(x: ColumnIndex, y: RowIndex, codes: &'a mut [u32]) -> Stack<'a>
        requires { (x.0 < 64) × (y.0 < 64) × (stack_size ≤ length codes.old) }
        ensures same { result.codes.ghost_name ≡ codes.entry.ghost_name }
        ensures starts { Starts (point_stack x.0 y.0) codes.old result }
        ensures count { result.count ≡ 2 }
    {
        let mut stack = Stack { codes, count: 0 };
        stack.push_code(code_of(LinePosition::Column(x)));
        stack.push_code(code_of(LinePosition::Row(y)));
        stack
    }
}
