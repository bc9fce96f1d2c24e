// A plain model of a register: every count is made anew from the rows.
use register::RegisterFault;
use std::alloc::{AllocError, Global};

#[derive(Drop)]
pub(crate) struct Model {
    rows: Vec<u64>,
    seats: [u32; 64],
}

impl Model {
    // A user for each row, and seats for all of the most users that there may be.
    fn new(rows: Vec<u64>) -> Model {
        Model {
            rows,
            seats: [4096; 64],
        }
    }

    // The rows are the first 4,096 words of a table.
    pub(crate) fn of_rows(heap: Global, table: &[u64]) -> Result<Model, AllocError> {
        let rows = table.iter().take(4096).copied().collect(heap)?;
        Ok(Model::new(rows))
    }

    // So many users without roles.
    pub(crate) fn empty(heap: Global, users: usize) -> Result<Model, AllocError> {
        let mut rows = Vec::new(heap);
        rows.resize(users, 0)?;
        Ok(Model::new(rows))
    }

    // Each role has at most so many seats.
    pub(crate) fn limit(&mut self, own: &[u32; 64]) {
        for (seat, most) in self.seats.iter_mut().zip(own.iter()) {
            *seat = (*seat).min(*most);
        }
    }

    pub(crate) fn users(&self) -> usize {
        self.rows.len()
    }

    pub(crate) fn places(&self) -> usize {
        self.rows.len().saturating_mul(64)
    }

    pub(crate) fn seats(&self, role: u32) -> u32 {
        self.seats.get(role as usize).copied().unwrap_or(0)
    }

    pub(crate) fn row(&self, user: u32) -> u64 {
        self.rows.get(user as usize).copied().unwrap_or(0)
    }

    // The sum saturates, for nothing bounds the number of rows here.
    pub(crate) fn pairs(&self) -> usize {
        let counts = self.rows.iter().map(|row| row.count_ones() as usize);
        counts.fold(0usize, |all, count| all.saturating_add(count))
    }

    pub(crate) fn members(&self, role: u32) -> usize {
        self.rows.iter().filter(|row| held(**row, role)).count()
    }

    // Adds the pair, or says why not.
    pub(crate) fn add(&mut self, user: u32, role: u32) -> Result<(), RegisterFault> {
        let (members, seats) = (self.members(role), self.seats(role));
        let (pairs, places) = (self.pairs(), self.places());
        let Some(row) = self.rows.get_mut(user as usize) else {
            return Err(RegisterFault::NoSuchPair);
        };
        if role > 63 {
            return Err(RegisterFault::NoSuchPair);
        }
        if held(*row, role) {
            return Ok(());
        }
        if members >= seats as usize {
            return Err(RegisterFault::SeatsFull(role));
        }
        if pairs >= places {
            return Err(RegisterFault::PlacesFull);
        }
        *row |= single(role);
        Ok(())
    }

    // Whether the pair was held; it is not any more.
    pub(crate) fn remove(&mut self, user: u32, role: u32) -> bool {
        let Some(row) = self.rows.get_mut(user as usize) else {
            return false;
        };
        let was = held(*row, role);
        *row &= !single(role);
        was
    }

    pub(crate) fn clear(&mut self) {
        self.rows.fill(0);
    }
}

// The set with the one role.
fn single(role: u32) -> u64 {
    if role > 63 { 0 } else { 1u64 << role }
}

fn held(row: u64, role: u32) -> bool {
    row & single(role) != 0
}
