// Sets as they are printed.
ghost use Rattle.std.specs.Prelude.{Some};
ghost use Rattle.script.specs.Printing.{set_text};

use std::fmt;
use terms::sets;

// A set of roles or of permissions.
#[derive(Clone, Copy, PartialEq, Eq, Debug)]
pub struct Members {
    pub set: u64,
}

impl fmt::Display for Members {
    ghost output = { λ m. Some (set_text m.set) };

    fn fmt<W: fmt::Write>(&self, f: &mut fmt::Formatter<W>) -> fmt::Result {
        write!(f, "{{")?;
        // a space, once a member is printed
        let mut gap = "";
        for member in sets::Members::of(self.set) {
            write!(f, "{gap}{member}")?;
            gap = " ";
        }
        write!(f, "}}")
    }
}
