// How reading begins.
ghost use Rattle.readers.specs.Reading.{Counted, Opens};

use crate::faults::{NoJob, first};
use drafts::Reader;
use jobs::{FileFault, Head, Section};
use kinds::WrittenKind;
use plans::Plan;
use std::alloc::Global;

// A reader for what stands after line 1: the plan that line 1 asks for, where the kind and the size of the picture agree with it, and
// room for every cell and for as many moves as asked.
pub(crate) fn open<K: WrittenKind>(
    heap: Global,
    head: Head,
    size: usize,
    room: usize,
) -> Result<Reader<K>, NoJob>
    requires { Counted head }
    ensures { Opens K.Kind.values K.WrittenKind.written size room head result }
{
    if head.kind.code() != K::code() {
        return Err(NoJob::Refused(first(FileFault::OtherKind)));
    }
    if size != head.cells {
        return Err(NoJob::Refused(first(FileFault::PictureLength)));
    }
    let plan = Plan::new(heap, head.mode, head.width, head.height)?;
    let cells = Vec::with_capacity(heap, size)?;
    let orders = Vec::with_capacity(heap, room)?;
    Ok(Reader {
        section: Section::Plan,
        plan,
        cells,
        orders,
        room,
    })
}
