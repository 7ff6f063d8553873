// What C calls: each function of roots_c under its own name, with its clauses.

#![tactic(auto)]

ghost use Rattle.std.specs.Prelude.{◌≡◌};
ghost use Rattle.roots_c.specs.Flat.{flat_kind, flat_numbers, flat_tallies, version};
ghost use Rattle.roots_c.specs.FlatRecords.{bytes_in, flat_bytes, flat_verdict, read_coefficients, read_numbers, read_points, read_refusal, read_tallies, read_words, refusal_of};

// A search by the method's number; value and point are the tolerances. The kind is 0 by value, 1 by width, else 10 plus the
// refusal's number.
#[unsafe(no_mangle)]
pub extern "C" fn roots_search(
    coefficients: &[f64],
    method: u64,
    first: f64,
    second: f64,
    value: f64,
    point: f64,
    limit: u64,
    numbers: &mut [f64; 3],
    tallies: &mut [u64; 4],
) -> u64
    ensures kind { result ≡ flat_kind coefficients.now method first second value point limit }
    ensures numbers { numbers.new ≡ flat_numbers coefficients.now method first second value point limit }
    ensures tallies { tallies.new ≡ flat_tallies coefficients.now method first second value point limit }
{
    roots_c::roots_search(
        coefficients,
        method,
        first,
        second,
        value,
        point,
        limit,
        numbers,
        tallies,
    )
}

// The version of this interface.
#[unsafe(no_mangle)]
pub extern "C" fn roots_version() -> u64
    ensures { result ≡ version }
{
    roots_c::roots_version()
}

// Writes the record of a call and its answer, as roots_search took and gave them, as a record of a kind. It returns 0, 10
// or 11.
#[unsafe(no_mangle)]
pub extern "C" fn roots_record_write(
    record_kind: u64,
    coefficients: &[f64],
    method: u64,
    first: f64,
    second: f64,
    value: f64,
    point: f64,
    limit: u64,
    kind: u64,
    numbers: &[f64; 3],
    tallies: &[u64; 4],
    bytes: &mut [u8],
    length: &mut u64,
) -> u64
    ensures refusal { result ≡ refusal_of (flat_verdict record_kind coefficients.now method first second value point limit kind numbers.now tallies.now bytes.old) }
    ensures bytes { bytes.new ≡ flat_bytes record_kind coefficients.now method first second value point limit kind numbers.now tallies.now bytes.old }
    ensures length { length.new ≡ bytes_in (flat_verdict record_kind coefficients.now method first second value point limit kind numbers.now tallies.now bytes.old) }
{
    roots_c::roots_record_write(
        record_kind,
        coefficients,
        method,
        first,
        second,
        value,
        point,
        limit,
        kind,
        numbers,
        tallies,
        bytes,
        length,
    )
}

// Reads the record at the start of the bytes. It returns 0 or 11, and then all that it leaves is zero.
#[unsafe(no_mangle)]
pub extern "C" fn roots_record_read(
    bytes: &[u8],
    coefficients: &mut [f64; 16],
    points: &mut [f64; 4],
    numbers: &mut [f64; 3],
    tallies: &mut [u64; 4],
    words: &mut [u64; 6],
) -> u64
    ensures refusal { result ≡ read_refusal bytes.now }
    ensures coefficients { coefficients.new ≡ read_coefficients bytes.now }
    ensures points { points.new ≡ read_points bytes.now }
    ensures numbers { numbers.new ≡ read_numbers bytes.now }
    ensures tallies { tallies.new ≡ read_tallies bytes.now }
    ensures words { words.new ≡ read_words bytes.now }
{
    roots_c::roots_record_read(bytes, coefficients, points, numbers, tallies, words)
}
