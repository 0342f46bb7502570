//! Lists of block numbers as bytes, and back.

ghost use Rattle.std.specs.Prelude.{◌≡◌, ◌<◌, ◌≤◌, ◌++◌, ◌^◌, length, take, drop, All};

/// Reads a list of block numbers from the front of a buffer.
pub fn read_blocks(bytes: &[u8], list: &mut [u16])
    requires { length list.old ≤ length bytes.now }
    ensures { list.new ≡ take (length list.old) bytes.now }
{
    for (l, block) in list.iter_mut().enumerate() {
        *block = u16::from(bytes[l]);
    }
}

/// Writes a list of block numbers to the front of a buffer; the bytes behind it stay.
pub fn write_blocks(list: &[u16], out: &mut [u8])
    requires room { length list.now ≤ length out.old }
    requires bytes { All (λ block. block < 2 ^ 8) list.now }
    ensures { out.new ≡ list.now ++ drop (length list.now) out.old }
{
    for (l, block) in list.iter().enumerate() {
        out[l] = *block as u8;
    }
}
