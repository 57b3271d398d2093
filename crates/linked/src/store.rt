// The linked rows as a store: they are its records.
ghost use Rattle.std.proofs.Common.{rules};

use crate::Linked;
use tree::{Record, Refused, Store};

impl Store for Linked {
    const LARGEST: usize = 1_024;

    ghost LARGEST = { 1024 };

    ghost meaning = { λ s. record { records = s.rows.items; most = s.limit } };

    ghost rising = { Prim.search rules };

    ghost tree = { Prim.search rules };

    ghost labels = { Prim.search rules };

    ghost within = { Prim.search rules };

    ghost bounded = { Prim.search rules };

    ghost small = { Prim.search rules };

    fn count(&self) -> usize {
        self.rows.len()
    }

    fn limit(&self) -> usize {
        self.limit
    }

    fn next_above(&self, name: u64) -> Option<u64> {
        self.rows.get(self.past(name)).map(|row| row.name)
    }

    fn look(&self, name: u64) -> Option<Record> {
        let seat = self.find(name).ok()?;
        Some(self.rows[seat])
    }

    fn place(&mut self, name: u64, parent: u64, label: u16) -> Result<(), Refused> {
        let Err(seat) = self.find(name) else {
            return Err(Refused);
        };
        if label == 0 || self.rows.len() == self.limit || !self.hangs(name, parent) {
            return Err(Refused);
        }
        // There is room, so the row goes in without new memory.
        let _ = self.rows.insert(
            seat,
            Record {
                name,
                parent,
                label,
                mark: 0,
                note: 0,
            },
        );
        Ok(())
    }

    fn tag(&mut self, name: u64, mark: u32, note: u32) -> Result<(), Refused> {
        let Ok(seat) = self.find(name) else {
            return Err(Refused);
        };
        let row = self.rows[seat];
        self.rows[seat] = Record { mark, note, ..row };
        Ok(())
    }

    fn discard(&mut self, name: u64) -> Result<(), Refused> {
        let Ok(seat) = self.find(name) else {
            return Err(Refused);
        };
        if self.is_parent(name) {
            return Err(Refused);
        }
        self.rows.remove(seat);
        Ok(())
    }
}
