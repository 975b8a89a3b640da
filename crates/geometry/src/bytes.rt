// Numbers of 8 bytes, little-endian, into a lent buffer.
ghost use Rattle.std.specs.Prelude.{◌++◌, ◌≡◌, ◌*◌, ◌≤◌, drop, length};
ghost use Rattle.geometry.specs.Bytes.{numbers};

pub(crate) fn put_numbers(out: &mut [u8], values: &[u64])
    requires { 8 * length values.now ≤ length out.old }
    ensures { out.new ≡ numbers values.now ++ drop (8 * length values.now) out.old }
{
    for (i, value) in values.iter().enumerate() {
        out[8 * i..8 * i + 8].copy_from_slice(&value.to_le_bytes());
    }
}
