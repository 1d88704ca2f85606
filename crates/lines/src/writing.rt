// How a line is written.
ghost use Rattle.std.specs.Prelude.{◌≡◌, ◌+◌, ◌≤◌, length};
ghost use Rattle.std.proofs.Math.Seq.{paste};
ghost use Rattle.lines.specs.Lines.{line_bytes};

use crate::columns::field_columns;
use crate::line::Line;

impl Line {
    // The word, the four fields and a line feed.
    #[inline(always)]
    pub(crate) fn bytes(self) -> [u8; 29]
        ensures { result ≡ line_bytes self }
    {
        let mut bytes = [b' '; 29];
        bytes[..4].copy_from_slice(&self.word.bytes());
        bytes[4..10].copy_from_slice(&field_columns(self.one));
        bytes[10..16].copy_from_slice(&field_columns(self.two));
        bytes[16..22].copy_from_slice(&field_columns(self.three));
        bytes[22..28].copy_from_slice(&field_columns(self.four));
        bytes[28] = b'\n';
        bytes
    }
}

// Writes the 29 bytes of a line at a place, and leaves the rest. A number too long for its field is cut to its last six digits.
#[inline(always)]
pub fn write_line(line: Line, out: &mut [u8], at: usize)
    requires { at + 29 ≤ length out.old }
    ensures { out.new ≡ paste out.old at (line_bytes line) 29 }
{
    out[at..at + 29].copy_from_slice(&line.bytes());
}
