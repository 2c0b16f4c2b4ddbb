// The entries of `host` as C has them, for the comparison of `tests/`.

#![tactic(auto)]

ghost use Rattle.std.specs.Prelude.{◌≡◌};
ghost use Rattle.plan.specs.Plan.{plan_refusal};
ghost use Rattle.bucket_test.specs.Draw.{drawn_of, begun, drawn, report};
ghost use Rattle.stored_plan.specs.Reading.{decoded};
ghost use Rattle.stored_plan.specs.Writing.{written, bytes_after};
ghost use Rattle.saved_test.specs.Reading.{loaded, words_after};
ghost use Rattle.saved_test.specs.Writing.{saved, bytes_after as saveBytes};
ghost use Rattle.host.specs.Plans.{plan_in, plan_out};
ghost use Rattle.host.specs.States.{state_in, drawn_out, loaded_out, report_out};
ghost use Rattle.counting.specs.Run.{begun as begun_run, drawn as drawn_run};
ghost use Rattle.host.specs.Runs.{run_in, run_out};

use host::{HostPlan, HostReport, HostRun, HostState, HostTest, HostWritten};

#[unsafe(no_mangle)]
pub extern "C" fn host_plan_refusal(p: HostPlan) -> u32
    ensures { result ≡ plan_refusal (plan_in p) }
{
    host::host_plan_refusal(p)
}

#[unsafe(no_mangle)]
pub extern "C" fn host_begin(p: HostPlan, words: &mut [u64]) -> HostState
    ensures { (result ≡ drawn_out (drawn_of (begun (plan_in p) words.old)))
        × (words.new ≡ (begun (plan_in p) words.old).words) }
{
    host::host_begin(p, words)
}

#[unsafe(no_mangle)]
pub extern "C" fn host_draw(p: HostPlan, s: HostState, words: &mut [u64], d: u8) -> HostState
    ensures { (result ≡ drawn_out (drawn_of (drawn (plan_in p) (state_in s) words.old d)))
        × (words.new ≡ (drawn (plan_in p) (state_in s) words.old d).words) }
{
    host::host_draw(p, s, words, d)
}

#[unsafe(no_mangle)]
pub extern "C" fn host_report_on(p: HostPlan, s: HostState) -> HostReport
    ensures { result ≡ report_out (report (plan_in p) (state_in s)) }
{
    host::host_report_on(p, s)
}

#[unsafe(no_mangle)]
pub extern "C" fn host_read_plan(bytes: &[u8]) -> HostPlan
    ensures { result ≡ plan_out (decoded bytes.now).refusal (decoded bytes.now).plan }
{
    host::host_read_plan(bytes)
}

#[unsafe(no_mangle)]
pub extern "C" fn host_write_plan(p: HostPlan, bytes: &mut [u8]) -> HostWritten
    ensures { (result.refusal ≡ (written (plan_in p) bytes.old).refusal)
        × (result.size ≡ (written (plan_in p) bytes.old).size)
        × (bytes.new ≡ bytes_after (plan_in p) bytes.old) }
{
    host::host_write_plan(p, bytes)
}

#[unsafe(no_mangle)]
pub extern "C" fn host_read_test(p: HostPlan, bytes: &[u8], words: &mut [u64]) -> HostTest
    ensures { (result ≡ loaded_out (loaded (plan_in p) bytes.now words.old))
        × (words.new ≡ words_after (plan_in p) bytes.now words.old) }
{
    host::host_read_test(p, bytes, words)
}

#[unsafe(no_mangle)]
pub extern "C" fn host_write_test(
    p: HostPlan,
    s: HostState,
    words: &[u64],
    bytes: &mut [u8],
) -> HostWritten
    ensures { (result.refusal ≡ (saved (plan_in p) (state_in s) words.now bytes.old).refusal)
        × (result.size ≡ (saved (plan_in p) (state_in s) words.now bytes.old).size)
        × (bytes.new ≡ saveBytes (plan_in p) (state_in s) words.now bytes.old) }
{
    host::host_write_test(p, s, words, bytes)
}

#[unsafe(no_mangle)]
pub extern "C" fn host_count_begin(h: u32, n: u32) -> HostRun
    ensures { result ≡ run_out (begun_run h n) }
{
    host::runs::host_count_begin(h, n)
}

#[unsafe(no_mangle)]
pub extern "C" fn host_count_draw(r: HostRun, d: u8) -> HostRun
    ensures { result ≡ run_out (drawn_run (run_in r) d) }
{
    host::runs::host_count_draw(r, d)
}
