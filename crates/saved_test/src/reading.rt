// Reading a saved test (saved 3): any bytes give a test or a refusal.
ghost use Rattle.std.specs.Prelude.{◌≡◌, true, ◌&&◌, ◌+◌, ◌*◌, ◌^◌, ◌≤◌, length, replicate};
ghost use Rattle.walk.specs.Units.{million, wide, allowance_limit, horizon_limit};
ghost use Rattle.walk.specs.Spending.{portioned};
ghost use Rattle.walk.specs.Weighing.{Weighs};
ghost use Rattle.plan.specs.Places.{eq?, all_to, over_to, join_to};
ghost use Rattle.plan.specs.Plan.{count_limit, plan_refusal};
ghost use Rattle.plan.specs.Tables.{portion_of};
ghost use Rattle.bucket_test.specs.Turn.{start_record, record_sound};
ghost use Rattle.bucket_test.specs.Draw.{state_sound, no_state};
ghost use Rattle.little.specs.Little.{field, column, filled};
ghost use Rattle.saved_test.specs.Form.{header_size, count_field, masses_field, record_offset_field, mass_offset_field, size_field, record_size_field, mass_size_field};
ghost use Rattle.saved_test.specs.Form.{draws_field, record_size, step_field, mass_size, live_count, masses_to};
ghost use Rattle.saved_test.specs.Reading.{mark_known, count_fits, record_from, record_in, record_fits, part_in, state_in, words_in, form_fits, loaded_as, loaded, words_after};
ghost use Rattle.saved_test.specs.Inner.{RecordsAndMasses, Judgeable, part_passes};

use crate::form::{
    COUNT_FIELD, DRAWS_FIELD, HEADER_SIZE, LOWER_FIELD, MASS_OFFSET_FIELD, MASS_SIZE,
    MASS_SIZE_FIELD, MASSES_FIELD, ONES_FIELD, OVER_FIELD, RECORD_OFFSET_FIELD, RECORD_SIZE,
    RECORD_SIZE_FIELD, ROUNDED_FIELD, SIZE_FIELD, STEP_FIELD, UNDER_FIELD, UPPER_FIELD,
};
use crate::marks::{count_fits, live_count, mark_known, mark_of};
use bucket_test::judging::numbers_sound;
use bucket_test::starting::{no_walked, ten_of};
use bucket_test::{State, Threshold};
use little::numbers::{read_u16, read_u32, read_u64};
use little::tables::long_fields_in;
use plan::{COUNT_LIMIT, Plan};
use refusals::{Refusal, ensure};
use walk::row::clear_from;
use walk::soundness::{masses_sound, weigh_next, weigh_none};
use walk::spending::spending_at;
use walk::starting::start_walked;
use walk::{Mark, Portion, WIDE, Walked, Weighed};

// The record at an offset. Its mark comes first: its cases part the code, and the compiler makes one load of a field only where they do not.
pub fn record_from(bytes: &[u8], at: usize) -> Threshold
    requires { at + record_size ≤ length bytes.now }
    ensures { result ≡ record_from bytes.now at }
{
    let code = read_u32(bytes, at);
    let step = read_u32(bytes, at + STEP_FIELD);
    let mark = mark_of(code, step);
    let lower = read_u32(bytes, at + LOWER_FIELD).cast_signed();
    let upper = read_u32(bytes, at + UPPER_FIELD);
    let over = read_u64(bytes, at + OVER_FIELD);
    let under = read_u64(bytes, at + UNDER_FIELD);
    let rounded = read_u32(bytes, at + ROUNDED_FIELD);
    let walked = Walked {
        lower,
        upper,
        over,
        under,
        rounded,
    };
    Threshold { mark, walked }
}

// The record at place i.
pub fn record_in(bytes: &[u8], i: usize) -> Threshold
    requires { header_size + record_size * i + record_size ≤ length bytes.now }
    ensures { result ≡ record_in bytes.now i }
{
    record_from(bytes, HEADER_SIZE + RECORD_SIZE * i)
}

// The record at an offset has a known mark, and open boundaries that count as many masses as a part can hold.
fn record_fits(bytes: &[u8], at: usize) -> bool
    requires { at + record_size ≤ length bytes.now }
    ensures { result ≡ (mark_known (field 4 at bytes.now) (field 4 (at + step_field) bytes.now)
        && count_fits (record_from bytes.now at).mark (record_from bytes.now at).walked) }
{
    let code = read_u32(bytes, at);
    let step = read_u32(bytes, at + STEP_FIELD);
    mark_known(code, step) && count_fits(record_from(bytes, at))
}

// .. each of so many.
fn records_fit(bytes: &[u8], count: usize) -> bool
    requires { (count ≤ count_limit) × (header_size + record_size * count ≤ length bytes.now) }
    ensures { result ≡ all_to count (record_fits bytes.now) }
{
    (0..count).all(|i| record_fits(bytes, HEADER_SIZE + RECORD_SIZE * i))
}

// The masses that so many records ask.
fn masses_in(bytes: &[u8], count: usize) -> usize
    requires { (count ≤ count_limit) × (header_size + record_size * count ≤ length bytes.now) }
    ensures { (result ≡ masses_to (record_in bytes.now) count) × (result ≤ 2 ^ 33 * count_limit) }
{
    (0..count).map(|i| live_count(record_in(bytes, i))).sum()
}

// The header's numbers but n and S.
fn header_fits(bytes: &[u8], count: usize, masses: usize, offset: usize, size: usize) -> bool
    requires { header_size ≤ length bytes.now }
    ensures { result ≡
        (eq? (field 2 count_field bytes.now) count
        && (eq? (field 2 masses_field bytes.now) masses
        && (eq? (field 2 record_offset_field bytes.now) header_size
        && (eq? (field 2 mass_offset_field bytes.now) offset
        && (eq? (field 4 size_field bytes.now) size
        && (eq? (field 2 record_size_field bytes.now) record_size
        && eq? (field 2 mass_size_field bytes.now) mass_size)))))) }
{
    read_u16(bytes, COUNT_FIELD) as usize == count
        && read_u16(bytes, MASSES_FIELD) as usize == masses
        && read_u16(bytes, RECORD_OFFSET_FIELD) as usize == HEADER_SIZE
        && read_u16(bytes, MASS_OFFSET_FIELD) as usize == offset
        && read_u32(bytes, SIZE_FIELD) as usize == size
        && read_u16(bytes, RECORD_SIZE_FIELD) as usize == RECORD_SIZE
        && read_u16(bytes, MASS_SIZE_FIELD) as usize == MASS_SIZE
}

// So many records, and those of a beginning behind them.
fn records_in(bytes: &[u8], count: usize) -> [Threshold; COUNT_LIMIT]
    requires { (count ≤ count_limit) × (header_size + record_size * count ≤ length bytes.now) }
    ensures { result ≡ over_to count (λ i _. record_in bytes.now i) (replicate count_limit start_record) }
{
    let start = ten_of(start_walked());
    let mut records = start.records;
    for i in 0..count {
        let t = record_in(bytes, i);
        records[i] = t;
    }
    records
}

// The state that the bytes hold.
fn state_in(p: &Plan, bytes: &[u8]) -> State
    requires { (p.now.count ≤ count_limit) × (header_size + record_size * p.now.count ≤ length bytes.now) }
    ensures { result ≡ state_in p.now bytes.now }
{
    let n = read_u32(bytes, DRAWS_FIELD);
    let ones = read_u32(bytes, ONES_FIELD);
    let records = records_in(bytes, p.count as usize);
    State { n, ones, records }
}

// Refusal 15, under a plan with at most ten thresholds.
pub fn form_fits(p: &Plan, bytes: &[u8]) -> bool
    requires { p.now.count ≤ count_limit }
    ensures { result ≡ form_fits p.now bytes.now }
{
    let count = p.count as usize;
    let offset = HEADER_SIZE + RECORD_SIZE * count;
    if bytes.len() < offset {
        return false;
    }
    let masses = masses_in(bytes, count);
    let size = offset + MASS_SIZE * masses;
    if bytes.len() != size {
        return false;
    }
    if !header_fits(bytes, count, masses, offset, size) {
        return false;
    }
    records_fit(bytes, count)
}

// So many masses from an offset on, at the front of a part; the words behind them stay.
pub fn front_in(bytes: &[u8], at: usize, count: usize, part: &mut [u64])
    requires { (count ≤ length part.old) × (at + mass_size * count ≤ length bytes.now) }
    ensures { part.new ≡ filled count (column mass_size at mass_size bytes.now) part.old }
{
    long_fields_in(bytes, at, MASS_SIZE, count, part);
}

// .. and zeros behind them.
fn part_in(bytes: &[u8], at: usize, count: usize, part: &mut [u64])
    requires { (length part.old ≡ wide) × (count ≤ wide) × (at + mass_size * count ≤ length bytes.now) }
    ensures { part.new ≡ filled count (column mass_size at mass_size bytes.now) (replicate wide 0) }
{
    clear_from(part, count);
    front_in(bytes, at, count, part);
}

// The words that the bytes hold, where the form fits.
fn parts_in(p: &Plan, bytes: &[u8], words: &mut [u64])
    requires { (p.now.count ≤ count_limit) × (length words.old ≡ wide * p.now.count) × RecordsAndMasses p.now.count bytes.now }
    ensures { words.new ≡ words_in p.now bytes.now }
{
    let count = p.count as usize;
    let mut at = HEADER_SIZE + RECORD_SIZE * count;
    for i in 0..count {
        let t = record_in(bytes, i);
        let n = live_count(t);
        let start = WIDE * i;
        part_in(bytes, at, n, &mut words[start..start + WIDE]);
        at += MASS_SIZE * n;
    }
}

// So many masses from an offset on, weighed where they stand.
fn weigh_in(bytes: &[u8], at: usize, count: usize) -> Weighed
    requires { (count ≤ wide) × (at + mass_size * count ≤ length bytes.now) }
    ensures { Weighs (filled count (column mass_size at mass_size bytes.now) (replicate wide 0)) count result }
{
    let mut w = weigh_none();
    for i in 0..count {
        w = weigh_next(w, read_u64(bytes, at + MASS_SIZE * i));
    }
    w
}

// Whether a record, with its masses from an offset on, passes refusal 11 after n draws with so many ones, with e = E(n).
fn record_sound_in(bytes: &[u8], at: usize, t: Threshold, e: u64, n: u32, ones: u32) -> bool
    requires { (live_count t ≤ wide) × (at + mass_size * live_count t ≤ length bytes.now) }
    ensures { result ≡ record_sound e n ones t.mark t
        (filled (live_count t) (column mass_size at mass_size bytes.now) (replicate wide 0)) }
{
    if !numbers_sound(t, e, n, ones) {
        return false;
    }
    match t.mark {
        Mark::Open => masses_sound(
            weigh_in(bytes, at, live_count(t)),
            t.walked.over,
            t.walked.under,
        ),
        Mark::Above(_) | Mark::AtMost(_) => true,
    }
}

// Whether each of the thresholds that the bytes hold passes refusal 11 after n draws with so many ones, with such a portion of each allowance to spend.
fn parts_sound(p: &Plan, portion: Portion, bytes: &[u8], n: u32, ones: u32) -> bool
    requires { (n ≤ horizon_limit) × Judgeable p.now portion n bytes.now }
    ensures { portion_of p.now n ≡ portion → result ≡ all_to p.now.count (part_passes p.now bytes.now n ones) }
{
    let count = p.count as usize;
    let mut at = HEADER_SIZE + RECORD_SIZE * count;
    for (i, &allowance) in p.allowances[..count].iter().enumerate() {
        let t = record_in(bytes, i);
        let e = spending_at(allowance, portion);
        if !record_sound_in(bytes, at, t, e, n, ones) {
            return false;
        }
        at += MASS_SIZE * live_count(t);
    }
    true
}

// Refusal 11 of the test that the bytes hold, under a plan whose numbers are in their ranges, as those of an accepted one are, and where the form
// fits, with such a portion of each allowance to spend.
pub fn state_sound_in(p: &Plan, portion: Portion, bytes: &[u8]) -> bool
    requires { (p.now.horizon ≤ horizon_limit) × Judgeable p.now portion (field 4 draws_field bytes.now) bytes.now }
    ensures { portion_of p.now (field 4 draws_field bytes.now) ≡ portion
        → result ≡ state_sound p.now (state_in p.now bytes.now) (words_in p.now bytes.now) }
{
    let n = read_u32(bytes, DRAWS_FIELD);
    let ones = read_u32(bytes, ONES_FIELD);
    n <= p.horizon && ones <= n && parts_sound(p, portion, bytes, n, ones)
}

// The test that any bytes hold under any plan, into any lent words, or the refusal: plan, 8, 15, 11. On a refusal no word changes.
pub fn read_test(p: &Plan, bytes: &[u8], words: &mut [u64]) -> Result<State, Refusal>
    ensures { (loaded_as result ≡ loaded p.now bytes.now words.old) × (words.new ≡ words_after p.now bytes.now words.old) }
{
    p.judge()?;
    ensure(words.len() == WIDE * p.count as usize, Refusal::Words)?;
    ensure(form_fits(p, bytes), Refusal::SavedForm)?;
    let portion = p.portion_at(read_u32(bytes, DRAWS_FIELD));
    ensure(state_sound_in(p, portion, bytes), Refusal::Spoiled)?;
    let state = state_in(p, bytes);
    parts_in(p, bytes, words);
    Ok(state)
}
