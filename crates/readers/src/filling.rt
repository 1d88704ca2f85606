// What a reader has read goes where it was asked for.
ghost use Rattle.std.specs.Prelude.{◌≡◌, ◌≤◌, ◌++◌, map, length, drop, vec_capacity};
ghost use Rattle.plans.specs.Plans.{design_of, cells_in};
ghost use Rattle.jobs.specs.Jobs.{padded};
ghost use Rattle.readers.specs.Reading.{fresh};

use drafts::Reader;
use jobs::Order;
use kinds::{Kind, WrittenKind};
use morphology::Record;
use plans::Plan;

// A record for a move, not yet run. A function beside its one use: a `From` would have to stand in `jobs`, and be as long.
fn fresh(order: Order) -> Record
    ensures { result ≡ fresh order }
{
    Record {
        action: order.action,
        element: order.element,
        answer: 0,
        area: 0,
    }
}

// A record for each move; those beyond are left.
fn fill_records(orders: &[Order], records: &mut [Record])
    requires { length orders.now ≤ length records.old }
    ensures { records.new ≡ map fresh orders.now ++ drop (length orders.now) records.old }
{
    // What a loop over `iter_mut().zip(..)` writes is not known to a proof, so the place comes with the order.
    for (at, order) in orders.iter().enumerate() {
        records[at] = fresh(*order);
    }
}

// The cells that were read; those after them are least.
fn fill_picture<K: Kind>(mut cells: Vec<K>, picture: &mut [K])
    requires { length picture.old ≤ vec_capacity cells }
    ensures { picture.new ≡ padded K.Kind.values (length picture.old) cells.items }
{
    // It cannot fail, since there is room; the library has no such call without a result.
    let _ = cells.resize(picture.len(), K::least());
    picture.copy_from_slice(cells.as_slice());
}

// Fills the picture and the records with what was read, and answers the plan and the number of moves.
pub(crate) fn finish<K: WrittenKind>(
    reader: Reader<K>,
    picture: &mut [K],
    records: &mut [Record],
) -> (Plan, usize)
    requires size { length picture.old ≡ cells_in (design_of reader.plan) }
    requires room { reader.room ≡ length records.old }
    ensures plan { result.0 ≡ reader.plan }
    ensures moves { result.1 ≡ length reader.orders.items }
    ensures picture { picture.new ≡ padded K.Kind.values (length picture.old) reader.cells.items }
    ensures records { records.new ≡ map fresh reader.orders.items ++ drop (length reader.orders.items) records.old }
{
    let Reader {
        plan,
        cells,
        orders,
        ..
    } = reader;
    fill_picture(cells, picture);
    fill_records(orders.as_slice(), records);
    (plan, orders.len())
}
