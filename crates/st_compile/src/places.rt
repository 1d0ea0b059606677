ghost use Rattle.std.specs.Prelude.{◌≡◌, ◌<◌, ℕ, List, [], length, slice_get, None, Some, IfOk, OnOk, OnErr};
ghost use Rattle.st_filter.specs.Policies.{with_binary};
ghost use Rattle.st_compile.specs.Places.{binaries_of, policy_places, policy_row, GainsPlace, HasRoomAt, KeepsPlaces, LosesPlace};

use indexmap::IndexMap;
use st_base::Text;
use st_filter::row_in;
use std::alloc::{AllocError, Global};
use std::marker::Model;

/// For each policy, indices into a list, in order, such as those of its filters in a session.
#[derive(Debug, Drop)]
pub struct Places {
    // By the binaries of the policies.
    rows: IndexMap<Vec<u8>, Vec<usize>>,
}

impl Model for Places {
    ghost use Rattle.std.specs.Prelude.{List};
    ghost use Rattle.st_compile.specs.Places.{PolicyPlaces, shown_rows};

    ghost Value = { List PolicyPlaces };

    ghost view = { λ p. shown_rows p.rows.entries };
}

impl Places {
    /// No indices. It takes no memory.
    pub fn new(alloc: Global) -> Self
        ensures { result ≡ [] }
    {
        Places {
            rows: IndexMap::new(alloc),
        }
    }

    /// The indices of a policy.
    pub fn of(&self, policy: &[u8]) -> &[usize]
        ensures { result.now ≡ policy_places self.now policy.now }
    {
        match row_in(&self.rows, policy) {
            Some(row) => self.rows[row].as_slice(),
            None => &[],
        }
    }

    /// How many policies have a row.
    pub fn len(&self) -> usize
        ensures { result ≡ length (binaries_of self.now) }
    {
        self.rows.len()
    }

    /// The binary of the policy of a row. Rows are in the order in which they were made.
    pub fn binary(&self, row: usize) -> &[u8]
        requires { row < length (binaries_of self.now) }
        ensures { slice_get (binaries_of self.now) row ≡ Some result.now }
    {
        match self.rows.get_index(row) {
            Some((binary, _)) => binary.as_slice(),
            None => unreachable!(),
        }
    }

    /// The row of a policy, if it has one.
    pub fn row_of(&self, policy: &[u8]) -> Option<usize>
        ensures is { result ≡ policy_row self.now policy.now }
        ensures none { result ≡ None → policy_places self.now policy.now ≡ [] }
    {
        row_in(&self.rows, policy)
    }

    /// The indices of the policy of a row.
    pub fn at(&self, row: usize) -> &[usize]
        requires { (policy : List ℕ) × (policy_row self.now policy ≡ Some row) }
        ensures { (policy : List ℕ) → policy_row self.now policy ≡ Some row → result.now ≡ policy_places self.now policy }
    {
        self.rows[row].as_slice()
    }

    /// Makes room for one more index of a policy, and returns its row, which is made after the others if it has none. If memory runs out,
    /// the abstract state is unchanged.
    pub fn reserve(&mut self, alloc: Global, policy: &[u8]) -> Result<usize, AllocError>
        ensures room { IfOk result (λ row. HasRoomAt row self.new policy.now) }
        ensures row { OnOk result (binaries_of self.new ≡ with_binary (binaries_of self.old) policy.now) }
        ensures same { OnErr result (binaries_of self.new ≡ binaries_of self.old) }
        ensures kept { KeepsPlaces self.old self.new }
    {
        match row_in(&self.rows, policy) {
            Some(row) => {
                let places = &mut self.rows[row];
                places.reserve(1)?;
                Ok(row)
            }
            None => {
                let places = Vec::with_capacity(alloc, 1)?;
                let binary = Text::of(alloc, policy)?.into_bytes();
                let (row, _) = self.rows.insert_full(binary, places)?;
                Ok(row)
            }
        }
    }

    /// Appends an index to those of the policy of a row. The room was made before, so this takes no memory.
    pub fn push_at(&mut self, row: usize, place: usize)
        requires { (policy : List ℕ) × HasRoomAt row self.old policy }
        ensures gains { (policy : List ℕ) → HasRoomAt row self.old policy → GainsPlace self.old policy place self.new }
        ensures rows { binaries_of self.new ≡ binaries_of self.old }
    {
        let places = &mut self.rows[row];
        places.push_reserved(place);
    }

    /// Appends an index to those of a policy. If memory runs out, the abstract state is unchanged.
    pub fn add(&mut self, alloc: Global, policy: &[u8], place: usize) -> Result<(), AllocError>
        ensures ok { OnOk result (GainsPlace self.old policy.now place self.new) }
        ensures err { OnErr result (KeepsPlaces self.old self.new) }
    {
        let row = self.reserve(alloc, policy)?;
        self.push_at(row, place);
        Ok(())
    }

    /// Removes the index at a position from those of the policy of a row. It takes no memory.
    pub fn take_out_at(&mut self, row: usize, index: usize)
        requires { (policy : List ℕ) × ((policy_row self.old policy ≡ Some row) × (index < length (policy_places self.old policy))) }
        ensures { (policy : List ℕ) → policy_row self.old policy ≡ Some row → LosesPlace self.old policy index self.new }
    {
        let places = &mut self.rows[row];
        places.remove(index);
    }
}
