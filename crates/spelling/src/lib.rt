// Names, by their bytes.

#![tactic(auto)]

ghost use Rattle.std.specs.Prelude.{◌≡◌, true, ◌<◌};
ghost use Rattle.names.specs.Names.{same_bytes, same_name, is_arguments, bytes_of};
ghost use Rattle.spelling.specs.Spelling.{is_name, GivenNames};
ghost use Rattle.spelling.specs.Hash.{hash_of};

use names::words::pair_at;

// Whether two spellings are the same.
pub fn same_bytes(a: &[u8], b: &[u8]) -> bool
    ensures { result ≡ same_bytes a.now b.now }
{
    a == b
}

// The names of a table: pairs of start and length, and the text in which each pair lies.
#[derive(Clone, Copy)]
pub struct Names<'a> {
    pub pairs: &'a [u8],
    pub text: &'a [u8],
    pub ghost given: { GivenNames pairs.now text.now },
}

// A number of some bytes.
pub fn hash_bytes(a: &[u8]) -> usize
    ensures { (result ≡ hash_of a.now) × (result < 4294967296) }
{
    let mut h: usize = 0;
    for b in a {
        h = (31 * h + usize::from(*b)) % 4294967296;
    }
    h
}

impl<'a> Names<'a> {
    fn is_name(&self, k: usize) -> bool
        ensures { result ≡ is_name self.now.pairs.now k }
    {
        (0 < k) & (k <= self.pairs.len() / 8)
    }

    // The bytes of name k. A number that is no name has none.
    pub fn bytes_of(&self, k: usize) -> &'a [u8]
        ensures { result.now ≡ bytes_of self.now.pairs.now self.now.text.now k }
    {
        if !self.is_name(k) {
            return &self.text[..0];
        }
        let (start, n) = pair_at(self.pairs, k);
        &self.text[start..start + n]
    }

    // Whether name k is spelled x.
    pub fn is_spelled(&self, k: usize, x: &[u8]) -> bool
        ensures { result ≡ same_bytes (bytes_of self.now.pairs.now self.now.text.now k) x.now }
    {
        same_bytes(self.bytes_of(k), x)
    }

    // Whether name k is `arguments`.
    #[tactic(auto, unfolding(names::specs::Names::is_arguments, names::specs::Names::arguments_bytes))]
    pub fn is_arguments(&self, k: usize) -> bool
        ensures { result ≡ is_arguments self.now.pairs.now self.now.text.now k }
    {
        self.is_spelled(k, b"arguments")
    }

    // Whether two names are the same. A number that is no name has no bytes.
    #[tactic(auto, unfolding(names::specs::Names::same_name))]
    pub fn same_name(&self, j: usize, k: usize) -> bool
        ensures { result ≡ same_name self.now.pairs.now self.now.text.now j k }
    {
        same_bytes(self.bytes_of(j), self.bytes_of(k))
    }

    // A number of the bytes of name k.
    pub fn hash(&self, k: usize) -> usize
        ensures { (result ≡ hash_of (bytes_of self.now.pairs.now self.now.text.now k)) × (result < 4294967296) }
    {
        hash_bytes(self.bytes_of(k))
    }
}
