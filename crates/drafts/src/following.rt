// Which line may follow, and where a file ends.
ghost use Rattle.std.specs.Prelude.{◌≡◌, ◌≤◌, length, OnOk};
ghost use Rattle.jobs.specs.Heads.{at_line};
ghost use Rattle.jobs.specs.Steps.{line_more, next_by, end_by};
ghost use Rattle.drafts.specs.Drafts.{draft_of, answer, Stepped};

use crate::drafts::Reader;
use jobs::{FileFault, Section, Stop};
use kinds::WrittenKind;
use lines::{LineFault, Word, read_fields, read_word};

impl<K: WrittenKind> Reader<K> {
    // The section and the word decide together whether the line may follow: none leads back to an earlier section, and a vector stands in
    // an element. Then its fields are read.
    fn line(&mut self, bytes: &[u8]) -> Result<(), FileFault>
        ensures step { Stepped self.old self.new result (line_more K.Kind.values K.WrittenKind.written self.old.room (draft_of self.old) bytes.now) }
        ensures long { OnOk result (29 ≤ length bytes.now) }
    {
        let word = read_word(bytes)?;
        let section = self.section;
        match word {
            Word::Elem if section <= Section::Elements => self.element(read_fields(word, bytes)?),
            Word::Vect if section == Section::Elements => self.vector(read_fields(word, bytes)?),
            Word::Dead if section <= Section::Dead => self.dead(read_fields(word, bytes)?),
            Word::Cell if section <= Section::Cells => self.cell(read_fields(word, bytes)?),
            Word::Move if section <= Section::Moves => self.movement(read_fields(word, bytes)?),
            Word::Last if section <= Section::Moves => self.last(read_fields(word, bytes)?),
            _ => Err(FileFault::Line(LineFault::Word)),
        }
    }

    // The next line; after LAST there may be none.
    pub(crate) fn next(&mut self, bytes: &[u8]) -> Result<(), FileFault>
        ensures step { Stepped self.old self.new result (next_by K.Kind.values K.WrittenKind.written self.old.room self.old.section (draft_of self.old) bytes.now) }
        ensures long { OnOk result (29 ≤ length bytes.now) }
    {
        match self.section {
            Section::Last => Err(FileFault::AfterLast),
            _ => self.line(bytes),
        }
    }

    // Whether the file may end before that line: only after LAST.
    pub(crate) fn end(&self, line: usize) -> Result<(), Stop>
        ensures { result ≡ answer (at_line line (end_by self.now.section (draft_of self.now))) }
    {
        match self.section {
            Section::Last => Ok(()),
            _ => Err(Stop {
                fault: FileFault::NoLast,
                line,
            }),
        }
    }
}
