// The lines of a file, one after the other.
ghost use Rattle.std.specs.Prelude.{suc, ◌≤◌, length, drop};
ghost use Rattle.jobs.specs.Files.{read_from};
ghost use Rattle.drafts.specs.Drafts.{draft_of, Led};

use crate::drafts::Reader;
use jobs::Stop;
use kinds::WrittenKind;

impl<K: WrittenKind> Reader<K> {
    // Every line from line 2 on.
    pub fn lines(&mut self, bytes: &[u8]) -> Result<(), Stop>
        requires { 29 ≤ length bytes.now }
        ensures { Led self.old self.new result (read_from K.Kind.values K.WrittenKind.written self.old.room (suc (length bytes.now)) 2 (draft_of self.old) (drop 29 bytes.now)) }
    {
        let rest = &bytes[29..];
        for (at, bytes) in rest.chunks(29).enumerate() {
            if let Err(fault) = self.next(bytes) {
                return Err(Stop {
                    fault,
                    line: at + 2,
                });
            }
        }
        self.end(rest.len() / 29 + 2)
    }
}
