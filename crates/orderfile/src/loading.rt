//! Loading: an order file is read whole, and then entered into the caller's tables.

ghost use Rattle.std.specs.Prelude.{◌≡◌, length};
ghost use Rattle.tables.specs.PairTables.{HavePlaces};
ghost use Rattle.orderfile.specs.Faults.{FirstFault};
ghost use Rattle.orderfile.specs.Format.{StatedOrder, States};
ghost use Rattle.orderfile.specs.Loading.{IsChecked, costs_after, standing_after, Loads};

use crate::record::Record;
use crate::record_reader::RecordReader;
use cost::Plain;
use sheet::{Fault, OpenSheet, open};
use tables::enter_pair;

/// The size that a file states, once all of the file has been read; or its first fault.
pub fn check(file: &[u8]) -> Result<u16, Fault>
    ensures { IsChecked (States file.now) (FirstFault file.now) result }
{
    let mut records = RecordReader::new(file);
    let mut size = 0;
    while let Some(record) = records.next()? {
        if let Record::Size(n) = record {
            size = u16::from(n);
        }
    }
    Ok(size)
}

/// Loads the sheet that a file states into the caller's tables: as `open` and one `enter` for each
/// pair in turn leave them. Of a pair that the file names several times the greatest cost stands.
///
/// The whole file is read before anything is written. Refused: the first fault of the file, and
/// then tables that do not have n * n places, for the size n that the file states.
pub fn load(file: &[u8], costs: &mut [Plain], standing: &mut [u8]) -> Result<OpenSheet, Fault>
    ensures { Loads (States file.now) (FirstFault file.now) costs.old standing.old result costs.new
        standing.new }
{
    let n = check(file)?;
    let sheet = open(n, costs, standing)?;
    enter_all(n, file, costs, standing);
    Ok(sheet)
}

/// Enters the pairs of a file of size n, which is known to have no fault: so the reader, which
/// tests it again, hands out all of its records.
fn enter_all(n: u16, file: &[u8], costs: &mut [Plain], standing: &mut [u8])
    requires stated { (order : StatedOrder) × States file.now order × (order.size ≡ n) }
    requires places { HavePlaces n (length costs.old) (length standing.old) }
    ensures { (order : StatedOrder) → States file.now order
        → (costs.new ≡ costs_after order.size order.pairs costs.old standing.old)
        × (standing.new ≡ standing_after order.size order.pairs standing.old) }
{
    let mut records = RecordReader::new(file);
    while let Ok(Some(record)) = records.next() {
        if let Record::Pair(pair) = record {
            let (left, right) = (u16::from(pair.left), u16::from(pair.right));
            enter_pair(n, costs, standing, left, right, Plain(pair.cost));
        }
    }
}
