// What calls are answered, and how it is printed.
ghost use Rattle.std.specs.Prelude.{◌≡◌, Some};
ghost use Rattle.console.specs.declared.answers.Reply.TheVariants.{Set};
ghost use Rattle.console.specs.Answering.{reply_text, sets_text, breach_text, refusal_text, answer_text};

use judge::{JudgeFault, Witness};
use plan::PlanFault;
use script::fields::FieldList;
use script::sets::Members;
use std::fmt;
use terms::refusals::Fault;
use terms::sets::RoleSet;
use text::walk::WrongRecord;

// What a call gives that is carried out.
#[derive(Drop)]
pub(crate) enum Reply {
    Accepted,
    Set(Members),
    // the records of a text, with the places of their fields
    Fields(FieldList),
}

impl Reply {
    // The reply with a set of roles or of permissions.
    pub(crate) fn members(set: u64) -> Reply
        ensures { result ≡ Set (record { set = set }) }
    {
        Reply::Set(Members { set })
    }
}

// Why a plan is not accepted, and who could break which of its policies.
#[derive(Clone, Copy)]
pub(crate) struct Breach {
    pub(crate) fault: JudgeFault,
    pub(crate) witness: Witness,
}

// Why a call is refused.
#[derive(Clone, Copy)]
pub(crate) enum Refusal {
    Addition(PlanFault),
    Plan(Breach),
    Text(WrongRecord),
}

// The answer to a call.
pub(crate) type Answer = Result<Reply, Refusal>;

impl fmt::Display for Reply {
    ghost output = { λ r. Some (reply_text r) };

    fn fmt<W: fmt::Write>(&self, f: &mut fmt::Formatter<W>) -> fmt::Result {
        match self {
            Reply::Accepted => write!(f, "accepted"),
            Reply::Set(members) => write!(f, "{members}"),
            Reply::Fields(list) => write!(f, "{list}"),
        }
    }
}

// The roles of users, a set for each.
#[derive(Drop)]
struct RoleSets<'a>(&'a [RoleSet]);

impl fmt::Display for RoleSets<'_> {
    ghost output = { λ r. Some (sets_text r.0.now) };

    fn fmt<W: fmt::Write>(&self, f: &mut fmt::Formatter<W>) -> fmt::Result {
        for roles in self.0 {
            let members = Members { set: *roles };
            write!(f, " {members}")?;
        }
        Ok(())
    }
}

impl fmt::Display for Breach {
    ghost output = { λ b. Some (breach_text b) };

    fn fmt<W: fmt::Write>(&self, f: &mut fmt::Formatter<W>) -> fmt::Result {
        let number = self.fault.number();
        let policy = self.witness.policy;
        let users = self.witness.users;
        let sets = RoleSets(&self.witness.roles[..users.min(7)]);
        write!(
            f,
            "refused {number} policy {policy} users {users} roles{sets}"
        )
    }
}

impl fmt::Display for Refusal {
    ghost output = { λ r. Some (refusal_text r) };

    fn fmt<W: fmt::Write>(&self, f: &mut fmt::Formatter<W>) -> fmt::Result {
        match self {
            Refusal::Addition(fault) => {
                let number = fault.number();
                write!(f, "refused {number}")
            }
            Refusal::Plan(breach) => write!(f, "{breach}"),
            Refusal::Text(wrong) => {
                let number = wrong.number;
                write!(f, "wrong record {number}")
            }
        }
    }
}

// An answer as it is printed.
#[derive(Drop)]
pub(crate) struct Shown<'a>(pub(crate) &'a Answer);

impl fmt::Display for Shown<'_> {
    ghost output = { λ s. Some (answer_text s.0.now) };

    fn fmt<W: fmt::Write>(&self, f: &mut fmt::Formatter<W>) -> fmt::Result {
        match self.0 {
            Ok(reply) => write!(f, "{reply}"),
            Err(refusal) => write!(f, "{refusal}"),
        }
    }
}
