// Bytes read and written: words, 32 bits with the least byte first, and runs of bytes, as crate `job_format` says
// (specs/Bytes). The functions are this crate's own; what they require, its other functions meet.
ghost use Rattle.std.specs.Prelude.{◌≡◌, ◌+◌, ◌≤◌, length};
ghost use Rattle.std.proofs.lemmas.List.Edits.{sets};
ghost use Rattle.job_format.specs.Bytes.{word_bytes, word, word_at, overwrite};

use crate::layout::WORD_BYTES;

// The word that begins at a place.
pub fn word_at(bytes: &[u8], place: usize) -> u32
    requires { place + word_bytes ≤ length bytes.now }
    ensures { result ≡ word_at bytes.now place }
{
    u32::from_le_bytes([
        bytes[place],
        bytes[place + 1],
        bytes[place + 2],
        bytes[place + 3],
    ])
}

// Writes a word at a place.
pub fn put_word(bytes: &mut [u8], place: usize, x: u32)
    requires { place + word_bytes ≤ length bytes.old }
    ensures { bytes.new ≡ sets bytes.old place (word x) }
{
    let word = x.to_le_bytes();
    bytes[place..place + WORD_BYTES].copy_from_slice(&word);
}

// Writes some bytes at the front of a buffer.
pub fn put_bytes(bytes: &[u8], buffer: &mut [u8])
    requires { length bytes.now ≤ length buffer.old }
    ensures { buffer.new ≡ overwrite bytes.now buffer.old }
{
    for (k, x) in bytes.iter().enumerate() {
        buffer[k] = *x;
    }
}
