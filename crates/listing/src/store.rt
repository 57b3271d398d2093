// The listing as a store: its records are those of the rows, rising by name.
ghost use Rattle.listing.specs.Rows.{records_of, listed};
ghost use Rattle.tree.proofs.Rising.{rises_sorted};
ghost use Rattle.std.proofs.Common.{arith, rules};
ghost use Rattle.listing.specs.Asked.{length_records_of};

use crate::listing::Listing;
use crate::row::Row;
use tree::{Record, Refused, Store};

impl Store for Listing {
    const LARGEST: usize = 512;

    ghost LARGEST = { 512 };

    ghost meaning = { λ s. record { records = records_of s.rows.items; most = s.limit } };

    ghost rising = { λ s. rises_sorted (listed s.rows.items) s.apart };

    ghost tree = { Prim.search rules };

    ghost labels = { Prim.search rules };

    ghost within = { λ s.
        let e = s.rows.ok.0 in
        let l = length_records_of s.rows.items in
        omega arith };

    ghost bounded = { Prim.search rules };

    ghost small = { Prim.search rules };

    fn count(&self) -> usize {
        self.rows.len()
    }

    fn limit(&self) -> usize {
        self.limit
    }

    fn next_above(&self, name: u64) -> Option<u64> {
        self.least_over(name)
    }

    fn look(&self, name: u64) -> Option<Record> {
        let i = self.find(name)?;
        Some(self.record_at(i))
    }

    fn place(&mut self, name: u64, parent: u64, label: u16) -> Result<(), Refused> {
        if label == 0 || self.rows.len() == self.limit || self.find(name).is_some() {
            return Err(Refused);
        }
        let Some(seat) = self.seat_for(name, parent) else {
            return Err(Refused);
        };
        let row = Row {
            name,
            depth: seat.depth,
            label,
            mark: 0,
            note: 0,
        };
        let _ = self.rows.insert(seat.index, row);
        Ok(())
    }

    fn tag(&mut self, name: u64, mark: u32, note: u32) -> Result<(), Refused> {
        let Some(i) = self.find(name) else {
            return Err(Refused);
        };
        let row = self.rows[i];
        self.rows[i] = Row { mark, note, ..row };
        Ok(())
    }

    fn discard(&mut self, name: u64) -> Result<(), Refused> {
        let Some(i) = self.find(name) else {
            return Err(Refused);
        };
        if !self.is_leaf(i) {
            return Err(Refused);
        }
        self.rows.remove(i);
        Ok(())
    }
}
