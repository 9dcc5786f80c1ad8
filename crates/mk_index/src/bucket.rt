//! The hash of a word, and the bucket of a hash.
//!
//! The hash is no secret. If somebody writes a makefile whose words share a bucket, its chain is
//! too long to be walked, and edits walk over the lines, as without an index.
ghost use Rattle.std.specs.Prelude.{◌≡◌, ◌<◌};
ghost use Rattle.mk_index.specs.Chains.{bucket_of, hash_from, hash_of};
ghost use Rattle.mk_index.specs.Keys.{text_key};

/// The hash of a word: that of Fowler, Noll and Vo in 32 bits, with a sum in place of the exclusive
/// or, and 0 at its start.
pub fn hash_of(word: &[u8]) -> u32
    ensures { result ≡ hash_of word.now }
{
    hash_from(0, word)
}

/// The hash of the text by which a whole line is found: a line feed, and what its first physical line
/// says.
pub fn hash_of_text(text: &[u8]) -> u32
    ensures { result ≡ hash_of (text_key text.now) }
{
    hash_from(b'\n' as usize, text)
}

// The hash of some bytes that stand after others with this hash.
fn hash_from(start: usize, bytes: &[u8]) -> u32
    requires { start < 4294967296 }
    ensures { result ≡ hash_from start bytes.now }
{
    let mut hash = start;
    'bytes: for byte in bytes {
        hash = (hash * 16_777_619 + *byte as usize) % 4_294_967_296;
    }
    hash as u32
}

/// The bucket of a hash, from 0, among this number of buckets. It is a part of their number, as large as
/// the part that the mixed hash is of all numbers of 32 bits, so that no division is needed.
pub fn bucket_of(hash: u32, count: usize) -> usize
    requires some { 0 < count }
    requires few { count < 4294967296 }
    ensures bucket { result ≡ bucket_of count hash }
    ensures within { result < count }
{
    let mixed = hash as usize * 2_654_435_769 % 4_294_967_296;
    mixed * count / 4_294_967_296
}
