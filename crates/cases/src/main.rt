// Compares what the service answers with what is expected of it, case after case.
#![tactic(auto)]

use commission::commission;
use judge::{JudgedPlan, Witness};
use plan::{Addition, Entry, Plan};
use std::io;
use tally::Tally;
use terms::refusals::number_of;

mod starred;

// One case: what is asked, the number that the service answers (0 where it accepts), and the number that is expected: those of
// the refusal table, which is why they are numbers here.
#[derive(Drop)]
struct Case {
    what: &'static str,
    answer: u32,
    expected: u32,
}

impl Case {
    // Prints the case and counts it.
    fn note(&self, rt: &HostRuntime, tally: &mut Tally) -> io::Result<()> {
        let Case {
            what,
            answer,
            expected,
        } = self;
        let same = answer == expected;
        tally.note(same);
        if same {
            println!(rt; "{what}: {answer}")
        } else {
            println!(rt; "{what}: {answer}, WRONG, expected {expected}")
        }
    }
}

// What a plan answers to the last of the additions.
fn last_of(additions: &[Addition]) -> u32 {
    let mut plan = Plan::new();
    let mut last = Ok(());
    for addition in additions {
        last = plan.add(*addition);
    }
    number_of(&last)
}

// What an empty plan answers to one addition.
fn alone(addition: Addition) -> u32 {
    last_of(&[addition])
}

fn policy_cases() -> [Case; 8] {
    [
        Case {
            what: "policy of 16 permissions",
            answer: alone(Addition::Policy(0xffff, 2)),
            expected: 0,
        },
        Case {
            what: "policy of 17 permissions",
            answer: alone(Addition::Policy(0x1ffff, 2)),
            expected: 5,
        },
        Case {
            what: "8 people for 8 permissions",
            answer: alone(Addition::Policy(0xff, 8)),
            expected: 0,
        },
        Case {
            what: "9 people for 9 permissions",
            answer: alone(Addition::Policy(0x1ff, 9)),
            expected: 4,
        },
        Case {
            what: "9 people for 17 permissions",
            answer: alone(Addition::Policy(0x1ffff, 9)),
            expected: 4,
        },
        Case {
            what: "1 person for 2 permissions",
            answer: alone(Addition::Policy(3, 1)),
            expected: 4,
        },
        Case {
            what: "policy 32, the 33rd",
            answer: last_of(&[Addition::Policy(3, 2); 33]),
            expected: 6,
        },
        Case {
            what: "policy 31, the 32nd",
            answer: last_of(&[Addition::Policy(3, 2); 32]),
            expected: 0,
        },
    ]
}

fn constraint_cases() -> [Case; 8] {
    [
        Case {
            what: "limit 1 for 3 roles",
            answer: alone(Addition::Constraint(7, 1)),
            expected: 4,
        },
        Case {
            what: "limit 2 for 3 roles",
            answer: alone(Addition::Constraint(7, 2)),
            expected: 0,
        },
        Case {
            what: "limit 3 for 3 roles",
            answer: alone(Addition::Constraint(7, 3)),
            expected: 0,
        },
        Case {
            what: "limit 4 for 3 roles",
            answer: alone(Addition::Constraint(7, 4)),
            expected: 4,
        },
        Case {
            what: "limit 64 for 64 roles",
            answer: alone(Addition::Constraint(u64::MAX, 64)),
            expected: 0,
        },
        Case {
            what: "limit 4294967295 for 64 roles",
            answer: alone(Addition::Constraint(u64::MAX, u32::MAX)),
            expected: 4,
        },
        Case {
            what: "constraint 63, the 64th",
            answer: last_of(&[Addition::Constraint(3, 2); 64]),
            expected: 0,
        },
        Case {
            what: "constraint 64, the 65th",
            answer: last_of(&[Addition::Constraint(3, 2); 65]),
            expected: 6,
        },
    ]
}

fn number_cases() -> [Case; 8] {
    [
        Case {
            what: "role 63 senior to role 0",
            answer: alone(Addition::Senior(63, 0)),
            expected: 0,
        },
        Case {
            what: "role 64 senior to role 0",
            answer: alone(Addition::Senior(64, 0)),
            expected: 1,
        },
        Case {
            what: "role 0 senior to role 4294967295",
            answer: alone(Addition::Senior(0, u32::MAX)),
            expected: 1,
        },
        Case {
            what: "role 5 senior to itself",
            answer: alone(Addition::Senior(5, 5)),
            expected: 0,
        },
        Case {
            what: "permission 63 granted to role 63",
            answer: alone(Addition::Grant(63, 63)),
            expected: 0,
        },
        Case {
            what: "permission 64 granted to role 63",
            answer: alone(Addition::Grant(63, 64)),
            expected: 2,
        },
        Case {
            what: "permission 64 granted to role 64",
            answer: alone(Addition::Grant(64, 64)),
            expected: 1,
        },
        Case {
            what: "permission 4294967295 granted to role 0",
            answer: alone(Addition::Grant(0, u32::MAX)),
            expected: 2,
        },
    ]
}

// What a plan answers to the third of three pairs in seniority.
fn after(pairs: [(u32, u32); 3]) -> u32 {
    last_of(&pairs.map(|(senior, junior)| Addition::Senior(senior, junior)))
}

fn order_cases() -> [Case; 4] {
    [
        Case {
            what: "a cycle of two",
            answer: after([(0, 1), (0, 1), (1, 0)]),
            expected: 3,
        },
        Case {
            what: "a cycle of three",
            answer: after([(0, 1), (1, 2), (2, 0)]),
            expected: 3,
        },
        Case {
            what: "a pair that follows already",
            answer: after([(0, 1), (1, 2), (0, 2)]),
            expected: 0,
        },
        Case {
            what: "a pair named twice",
            answer: after([(0, 1), (1, 2), (0, 1)]),
            expected: 0,
        },
    ]
}

// An addition that is not answered yet.
fn asked(addition: Addition) -> Entry {
    Entry {
        addition,
        answer: Ok(()),
    }
}

// Eight permissions take eight people, role 0 has two of them, and nobody may have two roles.
fn seven_users() -> [Entry; 10] {
    [
        Addition::Grant(0, 0),
        Addition::Grant(0, 1),
        Addition::Grant(1, 2),
        Addition::Grant(2, 3),
        Addition::Grant(3, 4),
        Addition::Grant(4, 5),
        Addition::Grant(5, 6),
        Addition::Grant(6, 7),
        Addition::Policy(0xff, 8),
        Addition::Constraint(0x7f, 2),
    ]
    .map(asked)
}

// A count as the number of an answer.
fn counted(count: usize) -> u32 {
    u32::try_from(count).unwrap_or(u32::MAX)
}

// What judging answers, or the number of users of its witness.
fn witness_cases() -> [Case; 3] {
    let mut log = seven_users();
    let mut place = JudgedPlan::new();
    let mut witness = Witness::new();
    let judgement = commission(&mut log, &mut place, &mut witness);
    [
        Case {
            what: "a plan that seven users break",
            answer: number_of(&judgement.answer),
            expected: 7,
        },
        Case {
            what: "users of its witness",
            answer: counted(witness.users),
            expected: 7,
        },
        Case {
            what: "policies in the place after it",
            answer: counted(place.plan().policy_count()),
            expected: 0,
        },
    ]
}

fn main(rt: HostRuntime) -> io::Result<()> {
    starred::starred_cases_hold();
    let mut tally = Tally::new();
    let (policies, constraints, numbers) = (policy_cases(), constraint_cases(), number_cases());
    let (orders, witnesses) = (order_cases(), witness_cases());
    let all = policies
        .iter()
        .chain(constraints.iter())
        .chain(numbers.iter());
    for case in all.chain(orders.iter()).chain(witnesses.iter()) {
        case.note(&rt, &mut tally)?;
    }
    println!(rt; "{tally}")
}
