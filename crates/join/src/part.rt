// A plant that is joined: what decoding leaves of its model.
ghost use Rattle.std.specs.Prelude.{◌≡◌, ◌+◌};
ghost use Rattle.machine.specs.All.{get_or, length};
ghost use Rattle.layout.specs.Layout as Layout;
ghost use Rattle.codec.specs.Writing.{written};
ghost use Rattle.join_laws.specs.Rows.{puts};
ghost use Rattle.join_laws.specs.Whole.{Fits, cell_row_lem};

use codec::write_number;
use constants::Model;
use layout::{CAPACITIES, EDITION, TABLES, number};

// Its tables and its header, whose counts are within their limits.
#[derive(Clone, Copy)]
pub struct Part<'a> {
    pub tables: &'a [u32; TABLES],
    pub model: Model,
    pub ghost fits: { Fits model },
    pub ghost whole: { length tables.now ≡ Layout.tables_size },
}

impl Part<'_> {
    pub fn edition(&self) -> u32
        ensures { result ≡ get_or self.now.tables.now Layout.edition 0 }
    {
        let tables = self.tables;
        number(tables, EDITION)
    }

    // Writes the capacities of its storages.
    pub fn capacities(&self, out: &mut [u8], to: usize) -> usize
        ensures { written result out.new
            ≡ puts (cell_row_lem self.now.tables.now self.now.model.storages (Layout.capacities + self.now.model.facilities))
            (written to out.old) }
    {
        let tables = self.tables;
        let from = CAPACITIES + self.model.facilities;
        let mut next = to;
        for k in 0..self.model.storages {
            next = write_number(out, next, u64::from(number(tables, from + k)));
        }
        next
    }
}
