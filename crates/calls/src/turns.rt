// The turns at a draw of the thresholds that saved bytes hold (saved 6), one by one: the masses of one are read into a part, walk a step there,
// and go on into the lent bytes.
ghost use Rattle.std.specs.Prelude.{◌≡◌, ◌+◌, ◌≤◌, ◌<◌, length, take};
ghost use Rattle.walk.specs.Numbers.{le?};
ghost use Rattle.little.specs.Little.{put_at};
ghost use Rattle.saved_test.specs.Form.{header_size, live_count, masses_to};
ghost use Rattle.saved_test.specs.Reading.{record_in, mass_offset};
ghost use Rattle.calls.specs.Inner.{Seen, Turns, PartHoldsOneMore, new_record, new_part, new_size, new_entries};

use crate::{Standing, Turned};
use bucket_test::Threshold;
use bucket_test::turning::turn_front;
use plan::Plan;
use saved_test::form::{HEADER_SIZE, MASS_SIZE, RECORD_SIZE};
use saved_test::marks::live_count;
use saved_test::reading::{front_in, record_in};
use saved_test::writing::{write_part, write_record};
use walk::spending::spending_at;

// The turns at draw n of the thresholds that saved bytes hold under a plan, with so many ones by then.
#[derive(Clone, Copy)]
pub(crate) struct Turning<'a> {
    pub(crate) plan: &'a Plan,
    pub(crate) saved: &'a [u8],
    pub(crate) n: u32,
    pub(crate) ones: u32,
}

impl Turning<'_> {
    // The turn of the threshold at place i, with its record, and its masses at an offset: its new record, and its new masses at the front of the part.
    fn turn_at(&self, i: usize, t: Threshold, at: usize, part: &mut [u64]) -> Threshold
        requires { let x = self.now in Turns x.plan.now x.n x.ones x.saved.now × (i < x.plan.now.count) × (t ≡ record_in x.saved.now i)
            × (at ≡ mass_offset x.saved.now x.plan.now.count i) × (live_count t < length part.old) }
        ensures { let x = self.now in (result ≡ new_record x.plan.now x.n x.ones x.saved.now i)
            × (take (live_count result) part.new ≡ take (live_count result) (new_part x.plan.now x.n x.ones x.saved.now i)) }
    {
        front_in(self.saved, at, live_count(t), part);
        let e = spending_at(self.plan.allowances[i], self.plan.portion_at(self.n));
        turn_front(t, part, self.plan.thresholds[i], e, self.n, self.ones)
    }

    // How many masses the turns leave.
    fn masses_after(&self, part: &mut [u64]) -> usize
        requires { let x = self.now in Turns x.plan.now x.n x.ones x.saved.now × PartHoldsOneMore x.plan.now.count x.saved.now (length part.old) }
        ensures { let x = self.now in result ≡ masses_to (new_record x.plan.now x.n x.ones x.saved.now) x.plan.now.count }
    {
        let count = self.plan.count as usize;
        let mut at = HEADER_SIZE + RECORD_SIZE * count;
        let mut masses: usize = 0;
        // By places, since a record is read at its offset.
        for i in 0..count {
            let t = record_in(self.saved, i);
            let next = self.turn_at(i, t, at, part);
            masses += live_count(next);
            at += MASS_SIZE * live_count(t);
        }
        masses
    }

    // Refusal 12: whether there is room for the new form in so many bytes. Since no threshold gains more than one mass, most calls need not count them.
    pub(crate) fn has_room(&self, part: &mut [u64], room: usize) -> bool
        requires { let x = self.now in Turns x.plan.now x.n x.ones x.saved.now × PartHoldsOneMore x.plan.now.count x.saved.now (length part.old) }
        ensures { let x = self.now in result ≡ le? (new_size x.plan.now x.n x.ones x.saved.now) room }
    {
        let count = self.plan.count as usize;
        if self.saved.len() + MASS_SIZE * count <= room {
            return true;
        }
        let masses = self.masses_after(part);
        HEADER_SIZE + RECORD_SIZE * count + MASS_SIZE * masses <= room
    }

    // The turns of all, their new records and masses into the lent bytes, behind the place of the header: how many masses they leave, and how the new
    // records stand.
    pub(crate) fn turn_through(&self, part: &mut [u64], lent: &mut [u8]) -> Turned
        requires { let x = self.now in Turns x.plan.now x.n x.ones x.saved.now × PartHoldsOneMore x.plan.now.count x.saved.now (length part.old)
            × (new_size x.plan.now x.n x.ones x.saved.now ≤ length lent.old) }
        ensures { let x = self.now in (result.masses ≡ masses_to (new_record x.plan.now x.n x.ones x.saved.now) x.plan.now.count)
            × Seen x.plan.now x.plan.now.count (new_record x.plan.now x.n x.ones x.saved.now) result.standing
            × (lent.new ≡ put_at header_size (new_entries x.plan.now x.n x.ones x.saved.now) lent.old) }
    {
        let count = self.plan.count as usize;
        let front = HEADER_SIZE + RECORD_SIZE * count;
        let mut at = front;
        let mut masses: usize = 0;
        let mut standing = Standing::unseen();
        for i in 0..count {
            let t = record_in(self.saved, i);
            let next = self.turn_at(i, t, at, part);
            let live = live_count(next);
            let to = front + MASS_SIZE * masses;
            write_part(lent, to, live, part);
            write_record(lent, HEADER_SIZE + RECORD_SIZE * i, next);
            standing = standing.seen(next, self.plan.thresholds[i]);
            masses += live;
            at += MASS_SIZE * live_count(t);
        }
        Turned { masses, standing }
    }
}
