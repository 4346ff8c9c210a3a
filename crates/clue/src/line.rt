// The clue of one line of codes, written to one of the lists.
ghost use Rattle.std.specs.Prelude.{◌≡◌, ◌∷◌, [], ◌+◌, ◌≤◌, ◌<◌, length};
ghost use Rattle.loops.specs.Put.{Put};
ghost use Rattle.clue.specs.Steps.{fields, Writable, per, entries, clue_in};

use crate::{Field, Part, Reading};

// A number of each of the line's blocks, from index `at` of the list on.
fn write_blocks(line: &[u32], reading: Reading, field: Field, out: &mut [u32], at: usize) -> usize
    requires { Writable line.now out.old at }
    ensures { Put out.old at (fields field (clue_in reading line.now)) result out.new }
{
    let mut count = at;
    for run in line.chunk_by(|a, b| reading.read(*a) == reading.read(*b)) {
        if run[0] != reading.blank {
            out[count] = field.of(run.len() as u32, reading.read(run[0]));
            count += 1;
        }
    }
    count
}

// How many blocks the line has.
fn count_blocks(line: &[u32], reading: Reading) -> usize
    ensures { result ≡ length (clue_in reading line.now) }
{
    line.chunk_by(|a, b| reading.read(*a) == reading.read(*b))
        .filter(|run| run[0] != reading.blank)
        .count()
}

fn write_count(line: &[u32], reading: Reading, out: &mut [u32], at: usize) -> usize
    requires { (length line.now ≤ 64) × (at < length out.old) }
    ensures { Put out.old at (length (clue_in reading line.now) ∷ []) result out.new }
{
    out[at] = count_blocks(line, reading) as u32;
    at + 1
}

// The line's entries in one of the lists, from index `at` on. The two stay parameters: each caller goes on with the list itself.
pub fn write_clue(line: &[u32], reading: Reading, part: Part, out: &mut [u32], at: usize) -> usize
    requires { (length line.now ≤ 64) × (at + per part (length line.now) ≤ length out.old) }
    ensures { Put out.old at (entries part (clue_in reading line.now)) result out.new }
{
    match part {
        Part::Count => write_count(line, reading, out, at),
        Part::Each(field) => write_blocks(line, reading, field, out, at),
    }
}
