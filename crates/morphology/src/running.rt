ghost use Rattle.std.specs.Prelude.{◌≡◌, length};
ghost use Rattle.morphology.specs.Histories.{Called, answer_number, after, memory_after};
ghost use Rattle.morphology.specs.Statements.{HistoriesHold};
ghost use Rattle.morphology.specs.Runs.{Ran, call_of, noted};

use crate::cleaning::{close, open};
use crate::dilation::dilate;
use crate::erosion::erode;
use crate::faults::Refusal;
use crate::measures::area;
use crate::words::{Move, Record};
use kinds::Kind;
use plates::Plate;

// Makes the move of that number, or refuses it. It is given the number, since that of a record may be any.
fn make_move<P: Plate, K: Kind>(
    plate: &P,
    number: u8,
    element: usize,
    picture: &mut [K],
    work: &mut [K],
) -> Result<(), Refusal>
    ensures { Called K.Kind.values (P.Plate.meaning plate.now) number element result picture.old picture.new work.old work.new }
{
    match Move::try_from(number)? {
        Move::Dilate => dilate(plate, element, picture, work),
        Move::Erode => erode(plate, element, picture, work),
        Move::Open => open(plate, element, picture, work),
        Move::Close => close(plate, element, picture, work),
    }
}

// What a record is told of its call: 0, or the number of the refusal.
fn number_of(answer: Result<(), Refusal>) -> u8
    ensures { result ≡ answer_number answer }
{
    answer.err().map_or(0, Refusal::number)
}

// Works one record: makes its move, and writes the answer and the area into it.
fn work_record<P: Plate, K: Kind>(plate: &P, picture: &mut [K], work: &mut [K], item: &mut Record)
    ensures written { item.new ≡ noted K.Kind.values (P.Plate.meaning plate.now) (length work.old) picture.old item.old }
    ensures picture { picture.new ≡ after K.Kind.values (P.Plate.meaning plate.now) (call_of (length work.old) item.old) picture.old }
    ensures memory { work.new ≡ memory_after K.Kind.values (P.Plate.meaning plate.now) (call_of (length work.old) item.old) picture.old work.old }
{
    item.answer = number_of(make_move(plate, item.action, item.element, picture, work));
    item.area = area(picture);
}

// Works the records in order on one picture with one working memory, and writes the answer and the area into each. A refused record
// does not stop the list. What holds of every history of such calls is promised with it.
pub fn run<P: Plate, K: Kind>(plate: &P, picture: &mut [K], work: &mut [K], records: &mut [Record])
    ensures ran { Ran K.Kind.values (P.Plate.meaning plate.now) records.old records.new picture.old picture.new work.old work.new }
    ensures histories { HistoriesHold K.Kind.values (P.Plate.meaning plate.now) }
{
    for record in records.iter_mut() {
        work_record(plate, picture, work, record);
    }
}
