ghost use Rattle.std.specs.Prelude.{◌≡◌, ◌<◌, true, length, slice_index};
ghost use Rattle.plan.specs.declared.Plan.{Plan};
ghost use Rattle.judge.specs.Memory.{KnownRight, MemoRight};

use super::{Known, Memo, Slot};
use terms::sets::{Members, PermissionSet, contains};

impl<'a> Memo<'a> {
    // A memo over two tables of one length.
    pub(crate) fn over(sets: &'a mut [PermissionSet], known: &'a mut [Known]) -> Memo<'a>
        requires level { length known.old ≡ length sets.old }
        ensures sets { result.sets.now ≡ sets.old }
        ensures known { result.known.now ≡ known.old }
    {
        Memo {
            sets,
            known,
            all: 0,
        }
    }

    // From here on sets are looked up by their members in `all`.
    pub(crate) fn look_up_in(&mut self, all: PermissionSet)
        ensures { (p : Plan) → MemoRight p self.old → MemoRight p self.new }
    {
        self.all = all;
    }

    // The slot of a set: its bits at the permissions of `all`, up to sixteen of them, drawn together.
    pub(crate) fn slot(&self, held: PermissionSet) -> Slot
        ensures { result.held ≡ held }
    {
        let at = Members::of(self.all)
            .take(16)
            .fold(0, |i, k| (i & 32767) * 2 + contains(held, k) as usize);
        Slot { at, held }
    }

    // Whether the tables have the set in its slot, and not another.
    fn has(&self, slot: Slot) -> bool
        ensures { result ≡ true → (slot.at < length self.now.sets.now) × (slice_index self.now.sets.now slot.at ≡ slot.held) }
    {
        slot.at < self.sets.len() && self.sets[slot.at] == slot.held
    }

    // What is known of the set; nothing where its slot is another set's.
    pub(crate) fn known(&self, slot: Slot) -> Known
        ensures { (p : Plan) → MemoRight p self.now → KnownRight p slot.held result }
    {
        if self.has(slot) {
            self.known[slot.at]
        } else {
            Known::NONE
        }
    }

    // The slot has its set, and what is known of it.
    pub(crate) fn note(&mut self, slot: Slot, known: Known)
        ensures { (p : Plan) → MemoRight p self.old → KnownRight p slot.held known → MemoRight p self.new }
    {
        if slot.at < self.sets.len() {
            self.sets[slot.at] = slot.held;
            self.known[slot.at] = known;
        }
    }
}
