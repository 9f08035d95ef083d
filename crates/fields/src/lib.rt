// Lines and fields of a text, and the numbers in them.

#![tactic(auto)]

ghost use Rattle.std.specs.Prelude.{◌≡◌, [], length, MatchOption};
ghost use Rattle.fields.specs.Headers.{switch_header, name_header, row_header};
ghost use Rattle.fields.specs.Fields.{up_to, fields, number, row_words, row_of, same_bytes, Parted, Lined, bit_of, three_bits};

pub const NEWLINE: u8 = 10;

pub const SPACE: u8 = 32;

const ZERO: u8 = 48;

const ONE: u8 = 49;

// What stands before the first b and behind it, or nothing where there is no b.
pub fn split_once(s: &[u8], b: u8) -> Option<(&[u8], &[u8])>
    ensures { MatchOption result (length (up_to b s.now) ≡ length s.now) (λ p. Parted b s.now p.0.now p.1.now) }
{
    let i = s.iter().position(|c| *c == b)?;
    Some((&s[..i], &s[i + 1..]))
}

// The first line and what stands behind it, or nothing where there is no line.
pub fn split_line(s: &[u8]) -> Option<(&[u8], &[u8])>
    ensures { MatchOption result (s.now ≡ []) (λ p. Lined s.now p.0.now p.1.now) }
{
    if s.is_empty() {
        return None;
    }
    split_once(s, NEWLINE).or(Some((s, b"")))
}

// A decimal u32 without leading zeros. Its digits are added up by hand: `parse` takes a `str`, and takes a plus, so that a test of
// the digits and `from_utf8` would stand before it: no plainer.
fn read_number(s: &[u8]) -> Option<u32>
    ensures { result ≡ number s.now }
{
    if s.is_empty() {
        return None;
    }
    if s.len() > 1 && s[0] == ZERO {
        return None;
    }
    let mut v: u32 = 0;
    for c in s {
        if !c.is_ascii_digit() {
            return None;
        }
        v = v.checked_mul(10)?.checked_add(u32::from(*c - ZERO))?;
    }
    Some(v)
}

// What a row's line spells.
#[derive(Clone, Copy)]
pub struct Row {
    pub kind: u32,
    pub attr: u32,
    pub name: u32,
    pub end: u32,
}

// The row of four fields.
fn read_fields(kind: &[u8], attr: &[u8], name: &[u8], end: &[u8]) -> Option<Row>
    ensures { result ≡ row_words (number kind.now) (number attr.now) (number name.now) (number end.now) }
{
    Some(Row {
        kind: read_number(kind)?,
        attr: read_number(attr)?,
        name: read_number(name)?,
        end: read_number(end)?,
    })
}

// A line of four fields.
pub fn read_row(line: &[u8]) -> Option<Row>
    ensures { result ≡ row_of (fields line.now) }
{
    let (kind, rest) = split_once(line, SPACE)?;
    let (attr, rest) = split_once(rest, SPACE)?;
    let (name, end) = split_once(rest, SPACE)?;
    match split_once(end, SPACE) {
        Some(_) => None,
        None => read_fields(kind, attr, name, end),
    }
}

// One function for each header: one over an enum would need the enum, a `match` that gives the header's bytes, and a definition
// of these by the enum's cases besides: no plainer.

#[tactic(auto, using(crate::proofs::Splitting::same_is))]
pub fn is_switch_header(line: &[u8]) -> bool
    ensures { result ≡ same_bytes line.now switch_header }
{
    line == b"arrow async asyncgen".as_slice()
}

#[tactic(auto, using(crate::proofs::Splitting::same_is))]
pub fn is_name_header(line: &[u8]) -> bool
    ensures { result ≡ same_bytes line.now name_header }
{
    line == b"name".as_slice()
}

#[tactic(auto, using(crate::proofs::Splitting::same_is))]
pub fn is_row_header(line: &[u8]) -> bool
    ensures { result ≡ same_bytes line.now row_header }
{
    line == b"kind attr name end".as_slice()
}

// A switch.
fn read_bit(c: u8) -> Option<bool>
    ensures { result ≡ bit_of c }
{
    match c {
        ZERO => Some(false),
        ONE => Some(true),
        _ => None,
    }
}

// Three switches, each 0 or 1, one space apart.
pub fn read_switches(line: &[u8]) -> Option<(bool, bool, bool)>
    ensures { result ≡ three_bits line.now }
{
    let [x, s, y, t, z] = line else {
        return None;
    };
    if *s != SPACE || *t != SPACE {
        return None;
    }
    Some((read_bit(*x)?, read_bit(*y)?, read_bit(*z)?))
}
