// Reading a sheet: its switches, the bytes of its rows, of its name pairs and of its text, or the
// first line that is faulty or missing, from 1.

#![tactic(auto)]

ghost use Rattle.std.specs.Prelude.{◌≡◌, [], ◌*◌, ◌≤◌, ◌<◌, ◌^◌, length, MatchResult};
ghost use Rattle.acts.specs.View.{switches_of};
ghost use Rattle.fields.specs.Fields.{lines, Lined};
ghost use Rattle.parser.specs.Parse.{Read.faulty, RowsRead, SmallLines, NamesRead, Told, lent, from_first, from_fourth, sheet_of};

use acts::switches::Switches;
use decimal::put_bytes;
use fields::{
    is_name_header, is_row_header, is_switch_header, read_row, read_switches, split_line,
};
use names::words::put_pair;
use output::writer::Writer;

// "or over 1,024 rows"
pub const MOST_ROWS: usize = 1024;

// The first line that is faulty or missing, from 1.
#[derive(Clone, Copy, PartialEq, Eq, Debug)]
pub struct FaultyLine {
    pub line: usize,
}

// The row lines of s, the first of which is line `line`: how many rows there are.
fn read_rows(s: &[u8], line: usize, rows: &mut [u8]) -> Result<usize, FaultyLine>
    requires { (length s.now < 2 ^ 32) × (line < 2 ^ 62) × (16384 ≤ length rows.old) }
    ensures { (RowsRead s.now line rows.old result rows.new) × (SmallLines line result) }
{
    let mut rest = s;
    let mut w = Writer::new(rows, 0);
    // A loop by hand: `split_line` gives the lines one by one, and the writer's number is the answer: an iterator over it would be
    // no plainer.
    while let Some((text, after)) = split_line(rest) {
        let fault = FaultyLine { line: line + w.at };
        let row = read_row(text).ok_or(fault)?;
        if MOST_ROWS <= w.at {
            return Err(fault);
        }
        w.append(row.kind, row.attr, row.name, row.end);
        rest = after;
    }
    Ok(w.at)
}

// How many names there are and how many bytes they have, and what stands behind the header of the
// rows.
#[derive(Clone, Copy)]
struct Names<'a> {
    count: usize,
    text: usize,
    rest: &'a [u8],
}

// The name lines of s, the first of which is line 4.
fn read_names<'a>(s: &'a [u8], pairs: &mut [u8], text: &mut [u8]) -> Result<Names<'a>, FaultyLine>
    requires { (length s.now < 2 ^ 32) × (8 * length s.now ≤ length pairs.old) }
    ensures { NamesRead s.now pairs.old text.old result pairs.new text.new }
{
    let mut rest = s;
    let mut k: usize = 0;
    let mut t: usize = 0;
    // A loop by hand: `split_line` gives the lines one by one, and what stands behind the header of the rows is handed on, which a `for`
    // could not do: no plainer.
    while let Some((name, after)) = split_line(rest) {
        if is_row_header(name) {
            return Ok(Names {
                count: k,
                text: t,
                rest: after,
            });
        }
        put_pair(pairs, k, t as u32, name.len() as u32);
        t = put_bytes(text, t, name);
        k += 1;
        rest = after;
    }
    Err(FaultyLine { line: 4 + k })
}

// The first line of s, which is line `line`, and what stands behind it.
fn cut_line(s: &[u8], line: usize) -> Result<(&[u8], &[u8]), FaultyLine>
    ensures { MatchResult result (λ p. Lined s.now p.0.now p.1.now) (λ e. (s.now ≡ []) × (e.line ≡ line)) }
{
    split_line(s).ok_or(FaultyLine { line })
}

// The first three lines: the switches, and what stands behind the header of the names.
fn read_head(s: &[u8]) -> Result<(Switches, &[u8]), FaultyLine>
    ensures { MatchResult result
        (λ p. (from_fourth (switches_of p.0) (lines p.1.now) ≡ from_first (lines s.now)) × (length p.1.now ≤ length s.now))
        (λ e. (faulty e.line ≡ from_first (lines s.now)) × (e.line ≤ 3)) }
{
    let (header, rest) = cut_line(s, 1)?;
    if !is_switch_header(header) {
        return Err(FaultyLine { line: 1 });
    }
    let (bits, rest) = cut_line(rest, 2)?;
    let fault = FaultyLine { line: 2 };
    let (arrow_function, async_to_generator, async_generator_functions) = read_switches(bits).ok_or(
        fault,
    )?;
    let (header, rest) = cut_line(rest, 3)?;
    if !is_name_header(header) {
        return Err(FaultyLine { line: 3 });
    }
    let switches = Switches {
        arrow_function,
        async_to_generator,
        async_generator_functions,
    };
    Ok((switches, rest))
}

// A sheet: its switches, and how many rows, names and bytes of text stand at the front of what was
// lent for them. Counts and no slices: behind a slice in the result, `parse` could no longer say
// what is left in all that was lent.
#[derive(Clone, Copy)]
pub struct Sheet {
    pub switches: Switches,
    pub rows: usize,
    pub names: usize,
    pub text: usize,
}

// The longest text that is parsed. A sheet that is accepted has at most 114,738 bytes: 32 in its first three
// lines, 65,535 of text in 4,096 names with a newline each, 19 in the header of the rows, and 1,024 rows of 44.
pub const LONGEST: usize = 131072;

// A text of any bytes. The parts of a sheet stand at the front of what was lent; at a fault, that may hold
// anything.
pub fn parse(
    s: &[u8],
    rows: &mut [u8],
    pairs: &mut [u8],
    text: &mut [u8],
) -> Result<Sheet, FaultyLine>
    requires { (length s.now ≤ 131072) × (16384 ≤ length rows.old) × (1048576 ≤ length pairs.old) × (131072 ≤ length text.old) }
    ensures { Told (sheet_of s.now) 131072 result
        (lent rows.old rows.new pairs.old pairs.new text.old text.new) }
{
    let (switches, rest) = read_head(s)?;
    let names = read_names(rest, pairs, text)?;
    let n = read_rows(names.rest, 5 + names.count, rows)?;
    Ok(Sheet {
        switches,
        rows: n,
        names: names.count,
        text: names.text,
    })
}
