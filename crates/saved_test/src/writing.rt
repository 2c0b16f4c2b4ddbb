// Writing a test into lent bytes (saved 2).
ghost use Rattle.std.specs.Prelude.{◌≡◌, ◌++◌, ℕ, ◌+◌, ◌*◌, ◌≤◌, ◌<◌, length, get_or};
ghost use Rattle.walk.specs.Units.{wide};
ghost use Rattle.plan.specs.Places.{join_to};
ghost use Rattle.plan.specs.Plan.{count_limit};
ghost use Rattle.bucket_test.specs.Words.{part_at};
ghost use Rattle.bucket_test.specs.Turn.{no_record, record_at};
ghost use Rattle.little.specs.Little.{put_at};
ghost use Rattle.saved_test.specs.Form.{header_size, record_size, mass_size, live_count, masses_to, record_bytes, mass_bytes, record_offset, saved_size, header, saved_header, record_entries};
ghost use Rattle.saved_test.specs.Writing.{saved_as, saved, bytes_after};

use crate::form::{
    COUNT_FIELD, HEADER_SIZE, LOWER_FIELD, MASS_SIZE, MASS_SIZE_FIELD, ONES_FIELD, OVER_FIELD,
    RECORD_OFFSET_FIELD, RECORD_SIZE, ROUNDED_FIELD, SIZE_FIELD, UNDER_FIELD,
};
use crate::marks::{code_of, live_count, masses_of};
use bucket_test::judging::state_sound;
use bucket_test::{State, Threshold};
use little::numbers::{write_le, write_two};
use plan::Plan;
use refusals::{Refusal, ensure};
use walk::WIDE;

// A record at an offset.
pub fn write_record(bytes: &mut [u8], at: usize, t: Threshold)
    requires { at + record_size ≤ length bytes.old }
    ensures { bytes.new ≡ put_at at (record_bytes t) bytes.old }
{
    let w = t.walked;
    let (code, step) = code_of(t.mark);
    write_two(bytes, at, 4, code, 4, u64::from(step));
    write_two(
        bytes,
        at + LOWER_FIELD,
        4,
        w.lower.cast_unsigned(),
        4,
        u64::from(w.upper),
    );
    write_le(bytes, at + OVER_FIELD, 8, w.over);
    write_le(bytes, at + UNDER_FIELD, 8, w.under);
    write_le(bytes, at + ROUNDED_FIELD, 4, u64::from(w.rounded));
}

// So many records behind the header.
fn write_records(bytes: &mut [u8], records: &[Threshold])
    requires { (length records.now ≤ count_limit) × (header_size + record_size * length records.now ≤ length bytes.old) }
    ensures { bytes.new ≡ put_at header_size (join_to (length records.now) (λ i. record_bytes (get_or records.now i no_record))) bytes.old }
{
    for (i, t) in records.iter().enumerate() {
        write_record(bytes, HEADER_SIZE + RECORD_SIZE * i, *t);
    }
}

// The first masses of a part.
pub fn write_part(bytes: &mut [u8], at: usize, count: usize, part: &[u64])
    requires { (count ≤ length part.now) × (at + mass_size * count ≤ length bytes.old) }
    ensures { bytes.new ≡ put_at at (mass_bytes count part.now) bytes.old }
{
    for (j, mass) in part[..count].iter().enumerate() {
        write_le(bytes, at + MASS_SIZE * j, MASS_SIZE, *mass);
    }
}

// The masses of so many thresholds behind their records.
fn write_masses(bytes: &mut [u8], records: &[Threshold], words: &[u64])
    requires { (length records.now ≤ count_limit) × (length words.now ≡ wide * length records.now)
        × ((i : ℕ) → i < length records.now → live_count (get_or records.now i no_record) ≤ wide)
        × (header_size + record_size * length records.now + mass_size * masses_to (λ i. get_or records.now i no_record) (length records.now) ≤ length bytes.old) }
    ensures { bytes.new
        ≡ put_at (header_size + record_size * length records.now)
        (join_to (length records.now) (λ i. mass_bytes (live_count (get_or records.now i no_record)) (part_at i words.now))) bytes.old }
{
    let mut at = HEADER_SIZE + RECORD_SIZE * records.len();
    for (i, t) in records.iter().enumerate() {
        let n = live_count(*t);
        let start = WIDE * i;
        write_part(bytes, at, n, &words[start..start + WIDE]);
        at += MASS_SIZE * n;
    }
}

// The header of the form of a test with so many thresholds and masses, after n draws.
pub fn write_header(bytes: &mut [u8], count: usize, masses: usize, n: u32, ones: u32)
    requires { (count ≤ count_limit) × (header_size ≤ length bytes.old) × (masses ≤ wide * count_limit) }
    ensures { bytes.new ≡ put_at 0 (header count masses n ones) bytes.old }
{
    let offset = HEADER_SIZE + RECORD_SIZE * count;
    let size = offset + MASS_SIZE * masses;
    write_two(bytes, COUNT_FIELD, 2, count as u32, 2, masses as u64);
    write_two(
        bytes,
        RECORD_OFFSET_FIELD,
        2,
        HEADER_SIZE as u32,
        2,
        offset as u64,
    );
    write_two(bytes, SIZE_FIELD, 4, size as u32, 4, u64::from(n));
    write_two(bytes, ONES_FIELD, 4, ones, 2, RECORD_SIZE as u64);
    write_le(bytes, MASS_SIZE_FIELD, 2, MASS_SIZE as u64);
}

// Header and records of a test, in front of its masses.
pub fn write_front(bytes: &mut [u8], p: &Plan, s: &State)
    requires { (p.now.count ≤ count_limit) × ((i : ℕ) → i < p.now.count → live_count (record_at s.now i) ≤ wide) × (record_offset p.now.count ≤ length bytes.old) }
    ensures { bytes.new ≡ put_at 0 (saved_header p.now s.now ++ record_entries p.now s.now) bytes.old }
{
    let count = p.count as usize;
    let (records, _) = s.records.split_at(count);
    write_header(bytes, count, masses_of(records), s.n, s.ones);
    write_records(bytes, records);
}

// The form of any test into any lent bytes, or the refusal: plan, 8, 11, 12. On a refusal no byte changes.
pub fn write_test(p: &Plan, s: &State, words: &[u64], bytes: &mut [u8]) -> Result<usize, Refusal>
    ensures { (saved_as result ≡ saved p.now s.now words.now bytes.old) × (bytes.new ≡ bytes_after p.now s.now words.now bytes.old) }
{
    p.judge()?;
    let count = p.count as usize;
    ensure(words.len() == WIDE * count, Refusal::Words)?;
    ensure(state_sound(p, s, words), Refusal::Spoiled)?;
    let (records, _) = s.records.split_at(count);
    let size = HEADER_SIZE + RECORD_SIZE * count + MASS_SIZE * masses_of(records);
    ensure(size <= bytes.len(), Refusal::Room)?;
    write_masses(bytes, records, words);
    write_front(bytes, p, s);
    Ok(size)
}
