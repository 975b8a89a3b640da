// One record of a row of them, by its number.
ghost use Rattle.std.specs.Prelude.{◌≡◌, get_or, set};

// Record n; a number past the last has another in its place.
pub fn record_at<T: Copy>(records: &[T], n: u64, other: T) -> T
    ensures { result ≡ get_or records.now n other }
{
    records.get(n as usize).copied().unwrap_or(other)
}

// A new record n; a number past the last changes none.
pub fn put_record<T: Copy>(records: &mut [T], n: u64, new: T)
    ensures { records.new ≡ set records.old n new }
{
    if n < records.len() as u64 {
        records[n as usize] = new;
    }
}
