use plan::Addition;
use script::words::{members, number};
use terms::sets::RoleSet;

// One call of the service.
#[derive(Drop)]
pub(crate) enum Call {
    // an empty plan is begun
    New,
    // an addition to the plan now being written
    Add(Addition),
    // the roles that a user with these roles is authorised for
    AuthorisedRoles(RoleSet),
    // the permissions that he holds
    HeldPermissions(RoleSet),
    // the plan now being written is judged
    Judge,
    // the places of the fields in a text
    Fields(Vec<u8>),
}

impl Call {
    // The call that the words make, if they make one: its name, and what it is given.
    pub(super) fn of(words: &[&str]) -> Option<Call> {
        let call = match words {
            ["new"] => Call::New,
            ["senior", senior, junior] => {
                Call::Add(Addition::Senior(number(senior)?, number(junior)?))
            }
            ["grant", role, permission] => {
                Call::Add(Addition::Grant(number(role)?, number(permission)?))
            }
            ["policy", least, permissions @ ..] => {
                let least = number(least)?;
                Call::Add(Addition::Policy(members(permissions)?, least))
            }
            ["constraint", limit, roles @ ..] => {
                let limit = number(limit)?;
                Call::Add(Addition::Constraint(members(roles)?, limit))
            }
            ["authorised-roles", roles @ ..] => Call::AuthorisedRoles(members(roles)?),
            ["held-permissions", roles @ ..] => Call::HeldPermissions(members(roles)?),
            ["judge"] => Call::Judge,
            _ => return None,
        };
        Some(call)
    }
}
