// Reading a job from a file. The heap and the bytes go side by side, and are no one thing.
ghost use Rattle.readers.specs.Reading.{Drafts, Reads};
ghost use Rattle.jobs.specs.Files.{JobAndFile};

use crate::faults::NoJob;
use crate::filling::finish;
use crate::measuring::measure;
use crate::opening::open;
use drafts::Reader;
use jobs::job_and_file;
use kinds::WrittenKind;
use morphology::Record;
use plans::Plan;
use std::alloc::Global;

// Judges every byte, and keeps what was read.
fn read_lines<K: WrittenKind>(
    heap: Global,
    bytes: &[u8],
    size: usize,
    room: usize,
) -> Result<Reader<K>, NoJob>
    ensures { Drafts K.Kind.values K.WrittenKind.written size room bytes.now result }
{
    let head = measure(bytes)?;
    let mut reader = open(heap, head, size, room)?;
    reader.lines(bytes)?;
    Ok(reader)
}

// Reads a job: fills the picture and the records, those beyond the moves being left, and answers the plan and the number of moves.
// Nothing is altered before the last byte was judged. Refuses what `measure` refuses, then another kind, then a picture that has not
// one value for each cell; then line by line, each refusal with its line. Fails for want of memory once line 1 was accepted.
pub fn read<K: WrittenKind>(
    heap: Global,
    bytes: &[u8],
    picture: &mut [K],
    records: &mut [Record],
) -> Result<(Plan, usize), NoJob>
    ensures reads { Reads K.Kind.values K.WrittenKind.written bytes.now result picture.old picture.new records.old records.new }
    ensures fixed { JobAndFile K.Kind.values K.WrittenKind.written }
{
    // It does nothing at run time; its promise is the one named `fixed`.
    job_and_file::<K>();
    let reader = read_lines(heap, bytes, picture.len(), records.len())?;
    Ok(finish(reader, picture, records))
}
