// The program: a sheet on the standard input, its answer on the standard output. The answer is
// whole before its first byte is written.

#![tactic(auto)]

ghost use Rattle.std.specs.Prelude.{◌≡◌, [], ◌+◌, ◌*◌, ◌≤◌, ◌<◌, ◌^◌, length, take, IfOk};
ghost use Rattle.names.specs.Words.{words};
ghost use Rattle.acts.specs.View.{switches_of};
ghost use Rattle.decimal.specs.Decimal.{Wrote};
ghost use Rattle.printer.specs.Print.{printed};
ghost use Rattle.form.specs.Form.{told, close, point_of};
ghost use Rattle.convert.specs.Output.{answer, outcome_for, output_for, answer_long, place_of, turned_away, Shows};

use acts::switches::Switches;
use answer::Numbers;
use converter::convert;
use form::Form;
use parser::{FaultyLine, LONGEST, MOST_ROWS, parse};
use printer::print;
use reading::read_full;
use std::io;
use std::io::Read;

// Room for the input: one byte more than the longest text that is read to its end, so that a full
// room is known to be too long.
const INPUT: usize = LONGEST + 1;

// Room for the bytes of a sheet's rows.
const ROWS: usize = 16 * MOST_ROWS;

// Room for as many name pairs as the input can have lines.
const PAIRS: usize = 8 * LONGEST;

// Room for the names' text, and for the output: 2,048 rows of 44 bytes, 256 records of 33, and 110
// bytes of headers and numbers are 98,670.
const TEXT: usize = LONGEST;

// Room for 2,048 rows of the result.
const RESULT: usize = 16 * 2048;

// Room for 256 records.
const RECORDS: usize = 12 * 256;

fn room<const N: usize>() -> [u8; N]
    ensures { N ≡ length result }
{
    [0; N]
}

// An answer with the rows and the records that it counts.
fn print_converted(answer: Numbers, rows: &[u8], records: &[u8], out: &mut [u8]) -> usize
    requires { (answer.place < 2 ^ 32) × (16 * answer.rows ≤ length rows.now) × (12 * answer.bindings ≤ length records.now) × (length rows.now ≤ 32768) × (length records.now ≤ 3072) }
    ensures { (Wrote out.old 0 (printed answer.number answer.place (words (take (16 * answer.rows) rows.now)) (words (take (12 * answer.bindings) records.now))) result out.new)
        × (result ≤ 98670) }
{
    let place = answer.place as u32;
    let n = 16 * answer.rows;
    let m = 12 * answer.bindings;
    print(answer.number, place, &rows[..n], &records[..m], out)
}

// The answer to a sheet: its table is converted as the print room's, and the result printed.
fn answer_sheet(
    switches: Switches,
    rows: &[u8],
    pairs: &[u8],
    text: &[u8],
    out: &mut [u8; TEXT],
) -> usize
    ensures { Shows (answer (outcome_for (switches_of switches) rows.now pairs.now text.now)) result out.new }
{
    let mut result = room::<RESULT>();
    let mut records = room::<RECORDS>();
    let converted = convert(
        false,
        switches,
        rows,
        pairs,
        text,
        &mut result,
        &mut records,
    );
    print_converted(Numbers::from(converted), &result, &records, out)
}

// What the program refuses before a table is converted.
#[derive(Clone, Copy)]
enum Refusal {
    // The first line that is faulty or missing.
    Faulty(FaultyLine),
    // A text in the form that has too many names, or too much text (`long_output`).
    TooLong,
}

impl Refusal {
    ghost use Rattle.convert.specs.Output.{number_of, place_of};

    // The request's number of the refusal.
    fn number(self) -> u32
        ensures { result ≡ number_of self }
    {
        match self {
            Refusal::Faulty(_) => 12,
            Refusal::TooLong => 1,
        }
    }

    // Its place: a line, from 1, or 0.
    fn place(self) -> usize
        ensures { result ≡ place_of self }
    {
        match self {
            Refusal::Faulty(fault) => fault.line,
            Refusal::TooLong => 0,
        }
    }
}

// A refusal.
fn turn_away(refusal: Refusal, out: &mut [u8; TEXT]) -> usize
    requires { place_of refusal < 2 ^ 32 }
    ensures { Shows (turned_away refusal) result out.new }
{
    print(refusal.number(), refusal.place() as u32, b"", b"", out)
}

// The answer to a text that the room has whole.
// That it is short stays a bare fact: a struct that carried it would be built in `answer_input` and taken apart in `parse`.
fn answer_text(s: &[u8], out: &mut [u8; TEXT]) -> usize
    requires { length s.now ≤ 131072 }
    ensures { Shows (output_for s.now) result out.new }
{
    let mut rows = room::<ROWS>();
    let mut pairs = room::<PAIRS>();
    let mut text = room::<TEXT>();
    match parse(s, &mut rows, &mut pairs, &mut text) {
        Err(fault) => turn_away(Refusal::Faulty(fault), out),
        Ok(sheet) => answer_sheet(
            sheet.switches,
            &rows[..16 * sheet.rows],
            &pairs[..8 * sheet.names],
            &text[..sheet.text],
            out,
        ),
    }
}

// The answer to a longer text, once its last piece is read.
fn answer_long(form: Form, out: &mut [u8; TEXT]) -> usize
    requires { (0 < form.line) × (form.line + 1 < 2 ^ 32) }
    ensures { Shows (answer_long (told (close (point_of form)))) result out.new }
{
    match form.end_text() {
        Ok(()) => turn_away(Refusal::TooLong, out),
        Err(fault) => turn_away(Refusal::Faulty(fault), out),
    }
}

// How many pieces are read of a text at most, so that the number of its last line is a u32: 4 GiB less 100 KB.
const MOST_PIECES: usize = 32767;

// The answer to a text of which the room has the first piece and is full: piece after piece, to its end or to
// where no later piece can change what is told (`settled-stays`). Of a text that does not end in so many pieces
// the line that it has come to is told.
fn answer_pieces(
    reader: &mut impl Read,
    input: &mut [u8; INPUT],
    out: &mut [u8; TEXT],
) -> io::Result<usize>
    ensures { IfOk result (λ n. n ≤ length out.new) }
{
    let mut form = Form::new();
    form.take_piece(input);
    for _piece in 1..MOST_PIECES {
        if form.is_settled() {
            break;
        }
        let n = read_full(reader, input)?;
        form.take_piece(&input[..n]);
        if n < input.len() {
            return Ok(answer_long(form, out));
        }
    }
    let line = form.line_number();
    Ok(turn_away(Refusal::Faulty(FaultyLine { line }), out))
}

// The answer to what the reader has left.
fn answer_input(
    reader: &mut impl Read,
    input: &mut [u8; INPUT],
    out: &mut [u8; TEXT],
) -> io::Result<usize>
    ensures { IfOk result (λ n. n ≤ length out.new) }
{
    let n = read_full(reader, input)?;
    if n <= LONGEST {
        return Ok(answer_text(&input[..n], out));
    }
    answer_pieces(reader, input, out)
}

fn main(rt: HostRuntime) -> io::Result<()> {
    let mut input = room::<INPUT>();
    let mut out = room::<TEXT>();
    let r = answer_input(&mut rt.stdin(), &mut input, &mut out)?;
    rt.write_all(&out[..r])
}
