// Printing an answer. Each function writes from byte `at` on, drops what does not fit, and answers
// where it stopped, as if there were room for all.

#![tactic(auto)]

ghost use Rattle.std.specs.Prelude.{◌≡◌, [], ◌∷◌, ◌++◌, ◌+◌, ◌*◌, ◌/◌, ◌≤◌, ◌<◌, ◌^◌, length};
ghost use Rattle.names.specs.Words.{words};
ghost use Rattle.decimal.specs.Decimal.{decimal, Wrote};
ghost use Rattle.printer.specs.Print.{line, row_at, lines_of, printed};

use decimal::{put_byte, put_bytes, put_number};
use fields::{NEWLINE, SPACE};
use names::words::cell;

// A number and the byte after it.
fn put_field(out: &mut [u8], at: usize, n: u32, b: u8) -> usize
    requires { at < 2 ^ 61 }
    ensures { (Wrote out.old at (decimal n ++ (b ∷ [])) result out.new) × (result ≤ at + 11) }
{
    let next = put_number(out, at, n);
    put_byte(out, next, b)
}

// A line of some numbers.
fn put_line(out: &mut [u8], at: usize, numbers: &[u32]) -> usize
    requires { (at < 2 ^ 60) × (length numbers.now < 2 ^ 40) }
    ensures { (Wrote out.old at (line numbers.now) result out.new) × (0 < length numbers.now → result ≤ at + 11 * length numbers.now) }
{
    let Some((last, rest)) = numbers.split_last() else {
        return put_byte(out, at, NEWLINE);
    };
    let mut to = at;
    for n in rest {
        to = put_field(out, to, *n, SPACE);
    }
    put_field(out, to, *last, NEWLINE)
}

// Words N * i to N * i + N of some bytes. A loop: the closure of `array::from_fn` would ask for the bounds of `bytes` again, in a
// contract of its own: no plainer.
fn row<const N: usize>(bytes: &[u8], i: usize) -> [u32; N]
    requires { (4 * (N * i + N) ≤ length bytes.now) × (length bytes.now < 2 ^ 40) }
    ensures { result ≡ row_at N (words bytes.now) i }
{
    let mut numbers = [0; N];
    for j in 0..N {
        numbers[j] = cell(bytes, N * i + j) as u32;
    }
    numbers
}

// A line for each N words of some bytes.
fn put_rows<const N: usize>(out: &mut [u8], at: usize, bytes: &[u8]) -> usize
    requires { (0 < N) × (N ≤ 4) × (at < 2 ^ 50) × (length bytes.now < 2 ^ 40) }
    ensures { (Wrote out.old at (lines_of N (length bytes.now / (4 * N)) (words bytes.now)) result out.new)
        × (result ≤ at + 11 * (N * (length bytes.now / (4 * N)))) }
{
    let mut to = at;
    for i in 0..bytes.len() / (4 * N) {
        to = put_line(out, to, &row::<N>(bytes, i));
    }
    to
}

// The line of the four numbers of an answer: the rows and the records are counted.
fn put_answer(
    out: &mut [u8],
    at: usize,
    number: u32,
    place: u32,
    rows: &[u8],
    records: &[u8],
) -> usize
    requires { (at < 2 ^ 60) × (length rows.now < 2 ^ 32) × (length records.now < 2 ^ 32) }
    ensures { (Wrote out.old at (line (number ∷ place ∷ length rows.now / 16 ∷ length records.now / 12 ∷ [])) result out.new) × (result ≤ at + 44) }
{
    let n = (rows.len() / 16) as u32;
    let m = (records.len() / 12) as u32;
    put_line(out, at, &[number, place, n, m])
}

// The whole answer: the bytes of its rows and of its records, of which a refusal has none.
pub fn print(number: u32, place: u32, rows: &[u8], records: &[u8], out: &mut [u8]) -> usize
    requires { (length rows.now < 2 ^ 32) × (length records.now < 2 ^ 32) }
    ensures { (Wrote out.old 0 (printed number place (words rows.now) (words records.now)) result out.new)
        × (result ≤ 110 + 44 * (length rows.now / 16) + 33 * (length records.now / 12)) }
{
    let i = put_bytes(out, 0, b"refusal place rows bindings\n");
    let j = put_answer(out, i, number, place, rows, records);
    let k = put_bytes(out, j, b"kind attr name end\n");
    let l = put_rows::<4>(out, k, rows);
    let m = put_bytes(out, l, b"use property owner\n");
    put_rows::<3>(out, m, records)
}
