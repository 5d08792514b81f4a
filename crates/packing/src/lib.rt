// Words as two bytes, low first.
#![tactic(auto)]

ghost use Rattle.std.specs.Prelude.{◌≡◌, ◌*◌, ◌≤◌, length, take};
ghost use Rattle.lists.specs.Onto.{onto};
ghost use Rattle.matching.specs.Host.{words, bytes_of};

// Unpacks words from bytes until target is full.
pub fn unpack(bytes: &[u8], target: &mut [u16])
    requires { 2 * length target.old ≤ length bytes.now }
    ensures { target.new ≡ take (length target.old) (words 2 bytes.now) }
{
    for (i, word) in target.iter_mut().enumerate() {
        *word = u16::from_le_bytes([bytes[2 * i], bytes[2 * i + 1]]);
    }
}

// Packs the first count words into bytes; the bytes after them stay as they are.
pub fn store(words: &[u16], count: usize, bytes: &mut [u8])
    requires { (count ≤ length words.now) × (2 * count ≤ length bytes.old) }
    ensures { bytes.new ≡ onto (bytes_of 2 (take count words.now)) bytes.old }
{
    for (i, word) in words[..count].iter().enumerate() {
        bytes[2 * i..2 * i + 2].copy_from_slice(&word.to_le_bytes());
    }
}
