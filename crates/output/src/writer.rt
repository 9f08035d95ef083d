// A writer over the output rows that a caller lends: it holds them, with the number of the next row.
ghost use Rattle.std.specs.Prelude.{◌≡◌, ◌+◌, ◌*◌, ◌<◌, ◌≤◌, ◌^◌, length};
ghost use Rattle.names.specs.Words.{rows_in};
ghost use Rattle.forest.specs.Forest.{Rows.none, Rows.node};
ghost use Rattle.output.specs.Held.{rowed, closed, copied, Puts};

use super::append_row;
use names::bytes::copy;
use names::words::put_word;

// The lent rows, and the number of the next one.
#[derive(Drop)]
pub struct Writer<'a> {
    pub rows: &'a mut [u8],
    pub at: usize,
}

impl<'a> Writer<'a> {
    // The lent rows go into the writer, with the number of the next row.
    pub fn new(rows: &'a mut [u8], at: usize) -> Writer<'a>
        ensures { (result.rows ≡ rows.entry) × (result.at ≡ at) }
    {
        Writer { rows, at }
    }
}

impl Writer<'_> {
    // A row is appended. Its kind is a number: a row that stays is written with the word that the table has.
    pub fn append(&mut self, kind: u32, attr: u32, name: u32, end: u32)
        requires { self.old.at < 2 ^ 32 }
        ensures same_reference { self.new.rows.ghost_name ≡ self.old.rows.ghost_name }
        ensures next { self.new.at ≡ self.old.at + 1 }
        ensures row { self.new ≡ rowed self.old kind attr name end }
    {
        self.at = append_row(self.rows, self.at, kind, attr, name, end);
    }

    // A row with nothing inside.
    pub fn leaf(&mut self, kind: u32, attr: u32, name: u32)
        requires { self.old.at + 1 < 2 ^ 32 }
        ensures same_reference { self.new.rows.ghost_name ≡ self.old.rows.ghost_name }
        ensures next { self.new.at ≡ self.old.at + 1 }
        ensures row { Puts self.old (node kind attr name none none) self.new }
    {
        let end = (self.at + 1) as u32;
        self.append(kind, attr, name, end);
    }

    // A row with one row inside.
    pub fn nested(
        &mut self,
        kind: u32,
        attr: u32,
        name: u32,
        in_kind: u32,
        in_attr: u32,
        in_name: u32,
    )
        requires { self.old.at + 2 < 2 ^ 32 }
        ensures same_reference { self.new.rows.ghost_name ≡ self.old.rows.ghost_name }
        ensures next { self.new.at ≡ self.old.at + 2 }
        ensures rows { Puts self.old (node kind attr name (node in_kind in_attr in_name none none) none) self.new }
    {
        let row = self.at;
        self.append(kind, attr, name, 0);
        self.leaf(in_kind, in_attr, in_name);
        self.close(row);
    }

    // Row `row` ends where the writer stands: the rows put since are inside it.
    // One method over a closure of these rows is no plainer: each caller would prove besides that its closure may be called, keeps the lent rows and
    // ends below 2 ^ 32, and in emit's walkers, a cycle of calls, a closure has only the contract that is written at it.
    pub fn close(&mut self, row: usize)
        requires { (row < 2 ^ 32) × (self.old.at < 2 ^ 32) }
        ensures same_reference { self.new.rows.ghost_name ≡ self.old.rows.ghost_name }
        ensures next { self.new.at ≡ self.old.at }
        ensures end { self.new ≡ closed self.old row }
    {
        let b = row * 16;
        if b + 16 <= self.rows.len() {
            put_word(self.rows, b + 12, self.at as u32);
        }
    }

    // Rows that stand in bytes of their own are put, all of them at once, where there is room for them.
    pub fn copy(&mut self, rows: &[u8])
        requires { self.old.at * 16 + length rows.now ≤ length self.old.rows.now }
        ensures same_reference { self.new.rows.ghost_name ≡ self.old.rows.ghost_name }
        ensures next { self.new.at ≡ self.old.at + rows_in rows.now }
        ensures rows { self.new ≡ copied self.old rows.now }
    {
        let b = self.at * 16;
        copy(&mut self.rows[b..b + rows.len()], rows);
        self.at += rows.len() / 16;
    }

    // The number of the next row. The rows stay as they are.
    pub fn finish(self) -> usize
        ensures { (result ≡ self.entry.at) × (self.exit.0.now ≡ self.entry.rows.now) }
    {
        self.at
    }
}
