// Rows and numbers into a stretch of a lent buffer, which is handed on as that part alone.
ghost use Rattle.std.specs.Prelude.{◌≡◌, ◌+◌, ◌≤◌, length};
ghost use Rattle.geometry.specs.Bytes.{little_endian};
ghost use Rattle.rules.specs.Counting.{row_to};
ghost use Rattle.rules.specs.Drive.{overwritten};

// Entries that rise by one, from the part's first to its last.
pub fn put_rising(part: &mut [u64], first: u64)
    requires { first + length part.old ≤ 18446744073709551616 }
    ensures { part.new ≡ row_to (λ i. first + i) (length part.old) }
{
    for (i, entry) in part.iter_mut().enumerate() {
        *entry = first + i as u64;
    }
}

// A part of another row, to the front.
pub fn put_stretch(row: &mut [u64], part: &[u64])
    requires { length part.now ≤ length row.old }
    ensures { row.new ≡ overwritten 0 part.now row.old }
{
    // A loop: with `copy_from_slice` the archive of `trial_c` would need `memmove` from outside.
    for (i, entry) in part.iter().enumerate() {
        row[i] = *entry;
    }
}

// The low bytes of a number, the lowest first, as many as there is room for. No `to_le_bytes`: a field may be longer than
// 8 bytes.
fn put_bytes(part: &mut [u8], n: u64)
    ensures { part.new ≡ little_endian (length part.old) n }
{
    let mut rest = n;
    for byte in part.iter_mut() {
        *byte = (rest % 256) as u8;
        rest /= 256;
    }
}

// A field of so many bytes.
pub fn put_field(bytes: &mut [u8], at: usize, width: usize, n: u64)
    requires { at + width ≤ length bytes.old }
    ensures { bytes.new ≡ overwritten at (little_endian width n) bytes.old }
{
    put_bytes(&mut bytes[at..at + width], n);
}
