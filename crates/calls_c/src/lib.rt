// The calls of `calls` as C has them (saved 6, 7): exported under the names that include/vimorake.h declares.

#![tactic(auto)]

ghost use Rattle.std.specs.Prelude.{◌≡◌};
ghost use Rattle.calls.specs.Calls.{called_begin, called_draw};

#[unsafe(no_mangle)]
pub extern "C" fn vimorake_begin(plan: &[u8], lent: &mut [u8]) -> u32
    ensures { (result ≡ (called_begin plan.now lent.old).number)
        × (lent.new ≡ (called_begin plan.now lent.old).bytes) }
{
    calls::vimorake_begin(plan, lent)
}

#[unsafe(no_mangle)]
pub extern "C" fn vimorake_draw(plan: &[u8], saved: &[u8], draw: u32, lent: &mut [u8]) -> u32
    ensures { (result ≡ (called_draw plan.now saved.now draw lent.old).number)
        × (lent.new ≡ (called_draw plan.now saved.now draw lent.old).bytes) }
{
    calls::vimorake_draw(plan, saved, draw, lent)
}
