// Rows of whole numbers as text: a row a line, its numbers apart by white space. From a `#` on a
// line is a comment, and a line with no number is passed over.
#![tactic(auto)]

ghost use Rattle.std.specs.Prelude.{◌≡◌, MatchResult};
ghost use Rattle.rows.specs.declared.RowsFault.TheVariants.{Memory};
ghost use Rattle.rows.specs.Rows.{before, Numbers, NoNumbers, Adds, Reads};

use std::alloc::{AllocFailed, Global};

// What begins a comment.
const COMMENT: char = '#';

// A row, and the number of its line, counted from 1.
#[derive(Debug, Drop)]
pub struct Row {
    pub line: usize,
    pub numbers: Vec<u32>,
}

// Why there are no rows to give, with the number of the line that shows it.
#[derive(Clone, Copy, Debug, PartialEq, Eq)]
pub enum RowsFault {
    // A word is no number, or the numbers are not as many as a row has.
    BadLine(usize),
    TooManyRows(usize),
    Memory,
}

// Written out, since a derived `From` doesn't say which fault it makes.
impl<T: Drop> From<AllocFailed<T>> for RowsFault {
    ghost from_gives = { λ _ r. r ≡ Memory };

    fn from(_e: AllocFailed<T>) -> RowsFault {
        RowsFault::Memory
    }
}

// The line up to its comment.
fn uncommented(line: &str) -> &str
    ensures { result.now ≡ before 35 line.now }
{
    match line.split_once(COMMENT) {
        Some((text, _)) => text,
        None => line,
    }
}

// The numbers of line `at`.
fn numbers(heap: Global, at: usize, line: &str) -> Result<Vec<u32>, RowsFault>
    ensures { MatchResult result (λ v. Numbers line.now v.items) (λ e. NoNumbers at line.now e) }
{
    let mut out = Vec::new(heap);
    for word in uncommented(line).split_whitespace() {
        let n = word.parse::<u32>().map_err(|_| RowsFault::BadLine(at))?;
        out.push(n)?;
    }
    Ok(out)
}

// How many numbers a row has, and how many rows a text may have.
#[derive(Clone, Copy, Debug, PartialEq, Eq)]
pub struct Layout {
    pub columns: usize,
    pub most: usize,
}

impl Layout {
    // The row of line `at`, if it has one, behind the rows so far.
    fn add(self, heap: Global, rows: &mut Vec<Row>, at: usize, line: &str) -> Result<(), RowsFault>
        ensures { Adds self.columns self.most at line.now rows.old.items rows.new.items result }
    {
        let numbers = numbers(heap, at, line)?;
        if numbers.is_empty() {
            return Ok(());
        }
        if numbers.len() != self.columns {
            return Err(RowsFault::BadLine(at));
        }
        if rows.len() >= self.most {
            return Err(RowsFault::TooManyRows(at));
        }
        rows.push(Row { line: at, numbers })?;
        Ok(())
    }

    // The rows of a text.
    pub fn read(self, heap: Global, text: &str) -> Result<Vec<Row>, RowsFault>
        ensures { Reads self.columns self.most text.now result }
    {
        let mut rows = Vec::new(heap);
        for (line, at) in text.lines().zip(1..) {
            self.add(heap, &mut rows, at, line)?;
        }
        Ok(rows)
    }
}
