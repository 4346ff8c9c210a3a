// Pushing: a pushed line moves to the top and stands once. All that a line pushes are dropped in one pass, then put on top.
ghost use Rattle.std.specs.Prelude.{◌≡◌, [], ◌∷◌, map, ◌++◌, ◌+◌, ◌≤◌, ◌<◌, length, IfNone, MatchOption};
ghost use Rattle.rules.specs.Board.{cross};
ghost use Rattle.rules.specs.Run.{push_all, changed};
ghost use Rattle.stack.specs.Stack.{line_of_code, lines_on, Kept, Pushable};
ghost use Rattle.stack.specs.Steps.{Comparable, crosses, without};

use crate::Stack;
use crate::codes::{code_of, crossing, line_of};
use rules::LinePosition;

// Is this the code of a line that crosses at a changed index? The crossing lines have the codes from that of index 0 on.
fn crosses_change(before: &[u32], answer: &[u32], line: LinePosition, code: u32) -> bool
    requires { Comparable before.now answer.now }
    ensures { result ≡ crosses line (changed 0 before.now «answer».now) (line_of_code code) }
{
    let first = code_of(crossing(line, 0));
    if code < first {
        return false;
    }
    let j = (code - first) as usize;
    if answer.len() <= j {
        return false;
    }
    before[j] != answer[j]
}

impl Stack<'_> {
    // Puts the line with this code on top.
    pub(crate) fn push_code(&mut self, code: u32)
        requires { self.old.count < length self.old.codes.now }
        ensures kept { Kept self.old self.new }
        ensures on_top { lines_on self.new ≡ line_of_code code ∷ lines_on self.old }
    {
        self.codes[self.count] = code;
        self.count += 1;
    }

    // Takes the line on top.
    pub fn pop(&mut self) -> Option<LinePosition>
        requires { self.old.count ≤ length self.old.codes.now }
        ensures kept { Kept self.old self.new }
        ensures empty { IfNone result (lines_on self.new ≡ []) }
        ensures taken { MatchOption result (lines_on self.old ≡ []) (λ line. lines_on self.old ≡ line ∷ lines_on self.new) }
    {
        if self.count == 0 {
            return None;
        }
        self.count -= 1;
        Some(line_of(self.codes[self.count]))
    }

    // Drops the crossing lines of the changed indexes; the others move down.
    fn drop_changed(&mut self, before: &[u32], answer: &[u32], line: LinePosition)
        requires { Comparable before.now answer.now × (self.old.count ≤ length self.old.codes.now) }
        ensures kept { Kept self.old self.new }
        ensures dropped { lines_on self.new ≡ without line (changed 0 before.now «answer».now) (lines_on self.old) }
    {
        let mut kept = 0;
        for i in 0..self.count {
            let code = self.codes[i];
            if !crosses_change(before, answer, line, code) {
                self.codes[kept] = code;
                kept += 1;
            }
        }
        self.count = kept;
    }

    // Puts the crossing lines of the changed indexes on top, from the highest to the lowest.
    fn append_changed(&mut self, before: &[u32], answer: &[u32], line: LinePosition)
        requires { Comparable before.now answer.now × (length (changed 0 before.now answer.now) + self.old.count ≤ length self.old.codes.now) }
        ensures kept { Kept self.old self.new }
        ensures on_top { lines_on self.new ≡ map (cross line) (changed 0 before.now «answer».now) ++ lines_on self.old }
    {
        for j in (0..answer.len()).rev() {
            if before[j] != answer[j] {
                self.push_code(code_of(crossing(line, j)));
            }
        }
    }

    // Pushes the crossing lines of the indexes at which a line's answer differs from it, from the highest to the lowest.
    pub fn push_changed(&mut self, before: &[u32], answer: &[u32], line: LinePosition)
        requires { Pushable before.now answer.now line self.old }
        ensures kept { Kept self.old self.new }
        ensures pushed { lines_on self.new ≡ push_all line (changed 0 before.now «answer».now) (lines_on self.old) }
    {
        self.drop_changed(before, answer, line);
        self.append_changed(before, answer, line);
    }
}
