ghost use Rattle.jobs.specs.Files.{JobAndFile};

use kinds::WrittenKind;

// A job and its file fix each other byte by byte: what writing a job gives is read as that job, and what is read is what writing its
// job gives. The call does nothing; its contract is the theorem.
pub fn job_and_file<K: WrittenKind>()
    ensures { JobAndFile K.Kind.values K.WrittenKind.written }
{}
