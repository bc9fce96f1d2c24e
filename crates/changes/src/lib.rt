// Changes of an assignment, drafts of them, and what they make of a user's roles.
#![tactic(auto)]

mod drafting;
mod faults;
pub mod rows;
pub mod turns;

use terms::short_list::ShortList;

// A change, with its user and role.
#[derive(Clone, Copy, PartialEq, Eq, Debug)]
pub enum Change {
    // the user is assigned to the role
    Assignment(u32, u32),
    // the role is withdrawn from him
    Withdrawal(u32, u32),
}

// Why a change is refused in its turn.
#[derive(Clone, Copy, PartialEq, Eq, Debug)]
pub enum ChangeFault {
    // the user is not below the number of users
    NoUser,
    // a role above 63
    NoRole,
    // an assignment of a pair that is held
    Held,
    // a withdrawal of a pair that is not
    NotHeld,
}

// A change that is refused in its turn: its number in the list, from 0, and why.
#[derive(Clone, Copy, PartialEq, Eq, Debug)]
pub struct TurnFault {
    pub change: usize,
    pub fault: ChangeFault,
}

// At most 16 changes, in order.
#[derive(Clone, Copy)]
pub struct Changes {
    items: ShortList<Change, 16>,
}

// A draft is neither `Drop` nor `Copy`: it is carried or struck, once.
pub struct Draft {
    changes: Changes,
}

// Why a change is not noted.
#[derive(Clone, Copy, PartialEq, Eq, Debug)]
pub enum DraftFault {
    // 16 changes are held
    Full,
}
