ghost use Rattle.std.specs.Prelude.{◌≡◌, [], ◌∷◌, ◌++◌, is_ok, if◌then◌else◌};
ghost use Rattle.std.specs.Result.{result_err};
ghost use Rattle.std.specs.Option.{option_map};
ghost use Rattle.changes.specs.Drafts.{listed, shown, note_rows};
ghost use Rattle.changes.specs.declared.DraftFault.TheVariants.{Full};

use super::{Change, Changes, Draft, DraftFault};
use terms::short_list::{NoRoom, ShortList};

impl From<NoRoom> for DraftFault {
    ghost from_gives = { λ _ f. f ≡ Full };

    fn from(_: NoRoom) -> DraftFault {
        DraftFault::Full
    }
}

impl Changes {
    // No change.
    pub fn none() -> Changes
        ensures { listed result ≡ [] }
    {
        Changes {
            items: ShortList::new(Change::Assignment(0, 0)),
        }
    }

    // One change more at the end, if fewer than 16 are held.
    pub fn note(&mut self, change: Change) -> Result<(), DraftFault>
        ensures answer { option_map shown (result_err result) ≡ note_rows (listed self.old) }
        ensures after { listed self.new ≡ listed self.old ++ (if is_ok result then change ∷ [] else []) }
    {
        Ok(self.items.push(change)?)
    }

    // The changes, in order.
    pub fn as_slice(&self) -> &[Change]
        ensures { result.now ≡ listed self.now }
    {
        self.items.as_slice()
    }
}

impl Draft {
    // An empty draft, which belongs to no engine.
    pub fn new() -> Draft
        ensures { listed result.changes ≡ [] }
    {
        Draft {
            changes: Changes::none(),
        }
    }

    // A draft of the changes.
    pub fn of(changes: Changes) -> Draft
        ensures { result.changes ≡ changes }
    {
        Draft { changes }
    }

    // Notes one change more.
    pub fn note(&mut self, change: Change) -> Result<(), DraftFault>
        ensures answer { option_map shown (result_err result) ≡ note_rows (listed self.old.changes) }
        ensures after { listed self.new.changes ≡ listed self.old.changes ++ (if is_ok result then change ∷ [] else []) }
    {
        self.changes.note(change)
    }

    // Spends the draft, and gives its changes.
    pub fn spent(self) -> Changes
        ensures { result ≡ self.changes }
    {
        let Draft { changes } = self;
        changes
    }

    // Spends the draft; nothing comes of it. It gives nothing and was lent nothing, so there is nothing for a clause to say: that
    // a draft is used once is its type's promise.
    pub fn strike(self) {
        let Draft { changes: _ } = self;
    }
}
