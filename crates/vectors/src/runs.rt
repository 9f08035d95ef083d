// The bytes of one stored case: its rows or records, its name pairs and its text. Each part is stored as
// runs of items.
ghost use Rattle.std.specs.Prelude.{◌≡◌, ◌+◌, ◌-◌, ◌*◌, ◌≤◌, ◌↔◌, length, replicate, IfOk, IsTrue};
ghost use Rattle.vectors.specs.Kinds.{item_size};

use crate::input::Fault;
use crate::words::Words;

// What a run repeats. One word of an item grows from item to item.
#[derive(Clone, Copy, PartialEq, Eq)]
pub enum Kind {
    // Kind, attr, name and end, which grows.
    Row,
    // Role, property and frame, which grows.
    Record,
    // Start, which grows, and length.
    Pair,
    // A byte, which grows.
    Byte,
}

impl Kind {
    // How many words are stored of an item.
    fn words(self) -> usize
        ensures { result ≤ 4 }
    {
        match self {
            Kind::Row => 4,
            Kind::Record => 3,
            Kind::Pair => 2,
            Kind::Byte => 1,
        }
    }

    // How many bytes it has: four for a word, the low byte first.
    fn size(self) -> usize
        ensures { result ≡ item_size self }
    {
        match self {
            Kind::Row => 16,
            Kind::Record => 12,
            Kind::Pair => 8,
            Kind::Byte => 1,
        }
    }

    // Whether these bytes are as many items.
    pub fn are_items(self, count: u64, bytes: &[u8]) -> bool
        ensures { IsTrue result ↔ (count * item_size self ≡ length bytes.now) }
    {
        count.checked_mul(self.size() as u64) == Some(bytes.len() as u64)
    }

    // Which of its words grows.
    fn growing(self) -> usize {
        match self {
            Kind::Row => 3,
            Kind::Record => 2,
            Kind::Pair | Kind::Byte => 0,
        }
    }
}

// Fills `room` with bytes, from the low one of `first` on, each by `step` above the one before.
fn put_bytes(room: &mut [u8], first: u32, step: u32) {
    let mut byte = first;
    for place in room.iter_mut() {
        *place = (byte % 256) as u8;
        byte = byte.wrapping_add(step);
    }
}

// Writes the words of an item, of which word `growing` has grown by `by`, each word's low byte first.
fn put_item(place: &mut [u8], item: &[u32], growing: usize, by: u32) {
    let (places, _) = place.as_chunks_mut::<4>();
    for (i, (place, word)) in places.iter_mut().zip(item).enumerate() {
        let word = if i == growing {
            word.wrapping_add(by)
        } else {
            *word
        };
        *place = word.to_le_bytes();
    }
}

// Fills `room` with items, each grown by `step` from the one before.
fn put_items(room: &mut [u8], kind: Kind, item: &[u32], step: u32) {
    let mut by: u32 = 0;
    for place in room.chunks_exact_mut(kind.size()) {
        put_item(place, item, kind.growing(), by);
        by = by.wrapping_add(step);
    }
}

// A run: `times` items, at the start of `out`. Returns how many bytes they have.
fn put_run(out: &mut [u8], kind: Kind, item: &[u32], times: u32, step: u32) -> Result<usize, Fault>
    ensures { IfOk result (λ n. n ≤ length out.old) }
{
    let len = times as usize * kind.size();
    let room = out.get_mut(..len).ok_or(Fault::Case)?;
    match item {
        [byte] => put_bytes(room, *byte, step),
        _ => put_items(room, kind, item, step),
    }
    Ok(len)
}

// Lays out the runs of a part: how many there are, and each one's item, times and step. Returns how many bytes
// there are now.
fn put_runs(words: &mut Words<'_>, kind: Kind, out: &mut [u8]) -> Result<usize, Fault>
    ensures len { IfOk result (λ n. n ≤ length out.old) }
    ensures words { IfOk result (λ _. length words.new.rest.now + 1 ≤ length words.old.rest.now) }
    ensures fewer { length words.new.rest.now ≤ length words.old.rest.now - 1 }
    ensures most { length words.old.rest.now ≤ length words.new.rest.now + 34359738368 }
{
    let count = words.next()?;
    let mut len = 0;
    for _ in 0..count {
        let item = words.take(kind.words())?;
        let times = words.next()?;
        let step = words.next()?;
        len += put_run(&mut out[len..], kind, item, times, step)?;
    }
    Ok(len)
}

// A part that consists of runs. Here and in each `build` only lengths are promised; what the bytes are is shown by the replay
// programs, which print that no stored answer differs.
pub fn runs<'a>(words: &mut Words<'_>, kind: Kind, out: &'a mut [u8]) -> Result<&'a [u8], Fault>
    ensures len { IfOk result (λ s. length s.now ≤ length out.old) }
    ensures words { IfOk result (λ _. length words.new.rest.now + 1 ≤ length words.old.rest.now) }
    ensures fewer { length words.new.rest.now ≤ length words.old.rest.now - 1 }
    ensures most { length words.old.rest.now ≤ length words.new.rest.now + 34359738368 }
{
    let len = put_runs(words, kind, out)?;
    Ok(&out[..len])
}

// A part with zero bytes behind its runs: the word after the runs says how many.
fn part_with_zeros<'a>(
    words: &mut Words<'_>,
    kind: Kind,
    out: &'a mut [u8],
) -> Result<&'a [u8], Fault>
    ensures len { IfOk result (λ s. length s.now ≤ length out.old) }
    ensures words { IfOk result (λ _. length words.new.rest.now + 2 ≤ length words.old.rest.now) }
    ensures fewer { length words.new.rest.now ≤ length words.old.rest.now - 1 }
    ensures most { length words.old.rest.now ≤ length words.new.rest.now + 34359738369 }
{
    let len = put_runs(words, kind, out)?;
    let zeros = words.next()? as usize;
    out[len..].get_mut(..zeros).ok_or(Fault::Case)?.fill(0);
    Ok(&out[..len + zeros])
}

// Names: the bytes of their pairs, and their text.
#[derive(Clone, Copy)]
pub struct Names<'a> {
    pub pairs: &'a [u8],
    pub text: &'a [u8],
}

// Room for eight names, and for some bytes of text, above the limits.
#[derive(Drop)]
pub struct NameRoom {
    pairs: [u8; 32832],
    text: [u8; 65552],
}

impl NameRoom {
    pub fn new() -> NameRoom
        ensures { (result.pairs ≡ replicate 32832 0) × (result.text ≡ replicate 65552 0) }
    {
        NameRoom {
            pairs: [0; 32832],
            text: [0; 65552],
        }
    }

    // Builds the names: pairs with zero bytes behind them, and the text.
    pub fn build(&mut self, words: &mut Words<'_>) -> Result<Names<'_>, Fault>
        ensures words { IfOk result (λ _. length words.new.rest.now + 3 ≤ length words.old.rest.now) }
        ensures fewer { length words.new.rest.now ≤ length words.old.rest.now - 1 }
        ensures most { length words.old.rest.now ≤ length words.new.rest.now + 68719476737 }
    {
        let NameRoom { pairs, text } = self;
        let pairs = part_with_zeros(words, Kind::Pair, pairs)?;
        let text = runs(words, Kind::Byte, text)?;
        Ok(Names { pairs, text })
    }
}

// A case that was built: the bytes of its rows or records, and its names.
#[derive(Clone, Copy)]
pub struct Built<'a> {
    pub first: &'a [u8],
    pub names: Names<'a>,
}

// Room for a case whose rows or records have at most N bytes.
#[derive(Drop)]
pub struct Room<const N: usize> {
    first: [u8; N],
    names: NameRoom,
}

impl<const N: usize> Room<N> {
    pub fn new() -> Room<N>
        ensures { (result.first ≡ replicate N 0) × (result.names.pairs ≡ replicate 32832 0) × (result.names.text ≡ replicate 65552 0) }
    {
        Room {
            first: [0; N],
            names: NameRoom::new(),
        }
    }

    // Builds a case whose first part has items of that kind.
    pub fn build(&mut self, words: &mut Words<'_>, kind: Kind) -> Result<Built<'_>, Fault>
        ensures words { IfOk result (λ _. length words.new.rest.now + 5 ≤ length words.old.rest.now) }
        ensures fewer { length words.new.rest.now ≤ length words.old.rest.now - 1 }
        ensures most { length words.old.rest.now ≤ length words.new.rest.now + 103079215106 }
    {
        let Room { first, names } = self;
        let first = part_with_zeros(words, kind, first)?;
        let names = names.build(words)?;
        Ok(Built { first, names })
    }
}
