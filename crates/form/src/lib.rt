// Whether a text of any length is a sheet, in pieces of any length: what goes from piece to piece is a few
// numbers and the first bytes of the line that the piece before ended in.

#![tactic(auto)]

ghost use Rattle.std.specs.Prelude.{◌≡◌, ◌≤◌, ◌<◌, length};

use fields::{NEWLINE, is_name_header, is_row_header, is_switch_header, read_row, read_switches};
use parser::{FaultyLine, MOST_ROWS};

mod settling;

pub use settling::is_settled;

// How many bytes of a line are kept: one more than a row's line can have.
pub const KEPT: usize = 44;

// What the next line is to be; or it is faulty. They are numbered from 0, in this order.
#[derive(Clone, Copy, PartialEq, Eq, Debug)]
pub enum Part {
    Faulty,
    SwitchHeader,
    Switches,
    NameHeader,
    // A name, or the header of the rows.
    Names,
    Rows,
}

impl Part {
    ghost use Rattle.std.specs.Prelude.{ℕ, MatchOption};
    ghost use Rattle.form.specs.Form.{Stand.stand, ends, part_number, moved, faulty_unless};

    // The part with that number.
    pub fn numbered(n: usize) -> Option<Part>
        ensures { MatchOption result (5 < n) (λ p. part_number p ≡ n) }
    {
        match n {
            0 => Some(Part::Faulty),
            1 => Some(Part::SwitchHeader),
            2 => Some(Part::Switches),
            3 => Some(Part::NameHeader),
            4 => Some(Part::Names),
            5 => Some(Part::Rows),
            _ => None,
        }
    }

    // Its number.
    pub fn number(self) -> usize
        ensures { result ≡ part_number self }
    {
        match self {
            Part::Faulty => 0,
            Part::SwitchHeader => 1,
            Part::Switches => 2,
            Part::NameHeader => 3,
            Part::Names => 4,
            Part::Rows => 5,
        }
    }

    fn only_if(self, good: bool) -> Part
        ensures { result ≡ faulty_unless good self }
    {
        if good { self } else { Part::Faulty }
    }

    // What comes after a line, with so many rows before it.
    fn after(self, line: &[u8], rows: usize) -> Part
        ensures ends { (k : ℕ) → moved (part_number self) (part_number result) k rows ≡ ends (stand (part_number self) k rows) line.now }
        ensures few { 1024 ≤ rows → part_number self ≡ 5 → part_number result ≡ 0 }
    {
        match self {
            Part::Faulty => Part::Faulty,
            Part::SwitchHeader => Part::Switches.only_if(is_switch_header(line)),
            Part::Switches => Part::NameHeader.only_if(read_switches(line).is_some()),
            Part::NameHeader => Part::Names.only_if(is_name_header(line)),
            Part::Names => {
                if is_row_header(line) {
                    Part::Rows
                } else {
                    Part::Names
                }
            }
            Part::Rows => Part::Rows.only_if((rows < MOST_ROWS) & read_row(line).is_some()),
        }
    }
}

// Which line comes next, from 1, what it is to be, and how many rows there have been; and its first
// bytes, as far as they are kept, with how many these are.
#[derive(Clone, Copy)]
pub struct Form {
    pub part: Part,
    pub line: usize,
    pub rows: usize,
    pub count: usize,
    pub front: [u8; KEPT],
    pub ghost low: { count ≤ 44 },
    pub ghost room: { length front ≡ 44 },
}

impl Form {
    ghost use Rattle.std.specs.Prelude.{◌+◌, ◌^◌, take, MatchResult};
    ghost use Rattle.form.specs.Form.{part_number, ends, told, settled, step, scan, start, close, stand_of, point_of};

    // Before the first byte.
    pub fn new() -> Form
        ensures { (point_of result ≡ start) × (result.line ≡ 1) × (result.count ≡ 0) }
    {
        Form {
            part: Part::SwitchHeader,
            line: 1,
            rows: 0,
            count: 0,
            front: [0; KEPT],
        }
    }

    // The line that the text has come to.
    pub fn line_number(&self) -> usize
        ensures { result ≡ self.now.line }
    {
        self.line
    }

    // The line ends whose first bytes are kept.
    fn end_line(&mut self)
        requires { self.old.line < 2 ^ 62 }
        ensures { (stand_of self.new ≡ ends (stand_of self.old) (take self.old.count self.old.front)) × (self.new.count ≡ 0) × (self.new.line ≤ self.old.line + 1) × (self.old.line ≤ self.new.line) }
    {
        let next = self.part.after(&self.front[..self.count], self.rows);
        let goes_on = next != Part::Faulty;
        let is_row = self.part == Part::Rows;
        let Form {
            part,
            line,
            rows,
            count,
            ..
        } = self;
        *line += usize::from(goes_on);
        *rows += usize::from(goes_on & is_row);
        *part = next;
        *count = 0;
    }

    // One byte.
    fn take(&mut self, c: u8)
        requires { self.old.line < 2 ^ 62 }
        ensures { (point_of self.new ≡ step c (point_of self.old)) × (self.new.line ≤ self.old.line + 1) × (self.old.line ≤ self.new.line) }
    {
        if c == NEWLINE {
            self.end_line();
        } else if self.count < KEPT {
            self.front[self.count] = c;
            self.count += 1;
        }
    }

    // The bytes of a piece.
    pub fn take_piece(&mut self, piece: &[u8])
        requires { self.old.line + length piece.now < 2 ^ 62 }
        ensures { (point_of self.new ≡ scan (point_of self.old) piece.now) × (self.new.line ≤ self.old.line + length piece.now) × (self.old.line ≤ self.new.line) }
    {
        for c in piece {
            self.take(*c);
        }
    }

    // Whether no later byte can change what is told (`settled-stays`).
    pub fn is_settled(&self) -> bool
        ensures { result ≡ settled (part_number self.now.part) self.now.count }
    {
        is_settled(self.part.number(), self.count)
    }

    // A line that has begun ends too.
    fn closed(mut self) -> Form
        requires { self.line < 2 ^ 62 }
        ensures { (stand_of result ≡ close (point_of self)) × (result.line ≤ self.line + 1) × (self.line ≤ result.line) }
    {
        if self.count == 0 {
            return self;
        }
        self.end_line();
        self
    }

    // The text ends: its first faulty or missing line, if it is not in the form.
    pub fn end_text(self) -> Result<(), FaultyLine>
        requires { self.line < 2 ^ 62 }
        ensures { MatchResult result
            (λ _. told (close (point_of self)) ≡ 0)
            (λ e. (e.line ≡ told (close (point_of self))) × (self.line ≤ e.line) × (e.line ≤ self.line + 1)) }
    {
        let last = self.closed();
        match last.part {
            Part::Rows => Ok(()),
            _ => Err(FaultyLine { line: last.line }),
        }
    }
}
