// From the text of a list of boxes to the record of their meeting, or to what is wrong with it.
ghost use Rattle.std.specs.Prelude.{◌≡◌, ℕ, ◌<◌, min, map, length, IfOk, string_bytes, slice_index};
ghost use Rattle.rows.specs.Rows.{said};
ghost use Rattle.first_meeting.specs.declared.meeting.Fault.TheVariants.{Memory};
ghost use Rattle.first_meeting.specs.Meetings.{clock_said, box_fault, Meeting, FromRows};

use crate::record::meeting_record;
use congruence::{Clock, NoCommonTick, Refusal, first_common_tick};
use rows::{Layout, Row, RowsFault};
use std::alloc::{AllocError, Global};
use std::fmt;
use thiserror::Error;

// A row has a period and a wait, and a bank has 24 sockets.
const BOXES: Layout = Layout {
    columns: 2,
    most: 24,
};

// Why a text has no record, with the number of the line that shows it.
#[derive(Debug, Drop, Error)]
pub enum Fault {
    #[error("line {0}: expected 'period wait', two whole numbers")]
    BadLine(usize),
    #[error("line {0}: expected at most 24 boxes")]
    TooManyBoxes(usize),
    #[error(fmt = write_bad_box)]
    BadBox {
        line: usize,
        period: u32,
        wait: u32,
        refusal: Refusal,
    },
    #[error("out of memory")]
    Memory,
}

// By hand, since the words depend on the refusal: a box can only be refused for its period or for its wait.
fn write_bad_box<W: fmt::Write>(
    line: &usize,
    period: &u32,
    wait: &u32,
    refusal: &Refusal,
    f: &mut fmt::Formatter<W>,
) -> fmt::Result {
    match refusal {
        Refusal::PeriodOutOfRange => write!(
            f,
            "line {line}: expected a period of 1 to 1000, found {period}"
        ),
        _ => write!(
            f,
            "line {line}: expected a wait below the period {period}, found {wait}"
        ),
    }
}

// Written out, since a derived `From` doesn't say which fault it makes.
impl From<AllocError> for Fault {
    ghost from_gives = { λ _ r. r ≡ Memory };

    fn from(_e: AllocError) -> Fault {
        Fault::Memory
    }
}

// Fault by fault, since a fault of the rows is told in this program's words.
impl From<RowsFault> for Fault {
    ghost from_gives = { λ e r. FromRows e r };

    fn from(e: RowsFault) -> Fault {
        match e {
            RowsFault::BadLine(line) => Fault::BadLine(line),
            RowsFault::TooManyRows(line) => Fault::TooManyBoxes(line),
            RowsFault::Memory => Fault::Memory,
        }
    }
}

// The number in a column of a row; 0 past its end.
fn column(row: &Row, i: usize) -> u32
    ensures { result ≡ slice_index row.now.numbers.items i }
{
    row.numbers.get(i).copied().unwrap_or(0)
}

// A number that is too large for a clock stays too large.
fn saturated(n: u32) -> u16
    ensures { result ≡ min n u16.MAX }
{
    u16::try_from(n).unwrap_or(u16::MAX)
}

// Neither type is this crate's, so that this can be no `From`.
fn clock_of(row: &Row) -> Clock
    ensures { result ≡ clock_said (said row.now) }
{
    Clock {
        period: saturated(column(row, 0)),
        wait: saturated(column(row, 1)),
    }
}

fn clocks_of(heap: Global, rows: &[Row]) -> Result<Vec<Clock>, AllocError>
    ensures { IfOk result (λ v. v.items ≡ map (λ r. clock_said (said r)) rows.now) }
{
    rows.iter().map(clock_of).collect(heap)
}

// The fault of the row whose clock was refused.
fn bad_box(row: &Row, refusal: Refusal) -> Fault
    ensures { result ≡ box_fault (said row.now) refusal }
{
    Fault::BadBox {
        line: row.line,
        period: column(row, 0),
        wait: column(row, 1),
        refusal,
    }
}

// The record of the boxes that a text says, or what is wrong with it.
pub fn first_meeting(heap: Global, text: &str) -> Result<String, Fault>
    ensures { Meeting text.now result }
{
    let rows = BOXES.read(heap, text)?;
    let clocks = clocks_of(heap, &rows)?;
    let first = first_common_tick(&clocks);
    if let Err(NoCommonTick::Refused(refused)) = first {
        return Err(bad_box(&rows[refused.place], refused.refusal));
    }
    Ok(meeting_record(heap, &clocks, first)?)
}
