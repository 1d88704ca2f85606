// Lines one after the other in an output.
ghost use Rattle.std.specs.Prelude.{◌≡◌, ◌*◌, ◌≤◌, List, length};
ghost use Rattle.std.specs.Iterator.{IsFinite};
ghost use Rattle.std.proofs.Math.Seq.{paste};
ghost use Rattle.lines.specs.Lines.{line_bytes};
ghost use Rattle.lines.specs.declared.line.Line.{Line};
ghost use Rattle.writers.specs.Writing.{place_after, with_lines, Gives};

use lines::{Line, write_line};

// Writes a line at a place, leaves the rest, and answers the place after it.
#[inline(always)]
pub fn put_line(line: Line, out: &mut [u8], at: usize) -> usize
    requires { place_after at ≤ length out.old }
    ensures end { result ≡ place_after at }
    ensures bytes { out.new ≡ paste out.old at (line_bytes line) 29 }
{
    write_line(line, out, at);
    at + 29
}

// Writes lines one after the other from the first byte on, leaves the rest, and answers the number of bytes written.
pub fn put_lines<I: Iterator<Item = Line> + Drop>(lines: I, out: &mut [u8]) -> usize
    requires can { I.can_next lines }
    requires ends { IsFinite (I.remaining lines) }
    requires told { (ls : List Line) × Gives I.next_gives lines ls × (29 * length ls ≤ length out.old) }
    ensures { (ls : List Line) → Gives I.next_gives lines ls → (result ≡ 29 * length ls) × (out.new ≡ with_lines out.old ls) }
{
    // By the place, since what a loop over `lines.zip(out.chunks_exact_mut(29))` writes is not known to a proof.
    let mut end = 0;
    for line in lines {
        end = put_line(line, out, end);
    }
    end
}
