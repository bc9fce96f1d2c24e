ghost use Rattle.std.specs.Prelude.{◌≡◌, length};

use terms::sets::PermissionSet;

mod noting;

// What is known of one user: nothing, that none who satisfies the constraints holds a set, or that one does. It takes one byte
// of a table, where an `Option<bool>` would take two.
#[derive(Clone, Copy, PartialEq, Eq, Debug)]
pub enum Single {
    Unknown,
    Never,
    Held,
}

// What is known of a set of permissions: of one user, and a number of users who cannot hold it together.
#[derive(Clone, Copy, PartialEq, Eq, Debug)]
pub struct Known {
    pub single: Single,
    pub short: u8,
}

impl Known {
    // Nothing.
    pub(crate) const NONE: Known = Known {
        single: Single::Unknown,
        short: 0,
    };
}

// What the search has found out, by sets of permissions, which are looked up by their members in `all`. A slot has its whole
// set, so a wrong place is only slower. The sets are apart from what is known of them because judging has a stack of less than
// 1 MiB: a record of a set and two bytes is padded to 16 bytes, and 65536 of those would take all of it.
#[derive(Drop)]
pub struct Memo<'a> {
    sets: &'a mut [PermissionSet],
    known: &'a mut [Known],
    all: PermissionSet,
    ghost level: { length known.now ≡ length sets.now },
}

// A set of permissions, and where the tables have it. It is found once for looking a set up and noting what was learned since:
// judging the hardest plans takes 2 in 100 longer where each call finds it.
#[derive(Clone, Copy)]
pub struct Slot {
    at: usize,
    held: PermissionSet,
}
