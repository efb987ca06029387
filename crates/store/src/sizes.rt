ghost use Rattle.std.specs.Prelude.{◌≡◌, ℕ, ◌+◌, ◌-◌, ◌*◌, ◌^◌, ◌<◌, ◌≤◌, length, slice_index_or, replicate, slice_set};
ghost use Rattle.store.specs.Units.{no_record};

// The freed blocks of one size: the first one's unit, and how many there are. Each links to the next.
#[derive(Clone, Copy)]
pub struct SizeRecord {
    pub(crate) first: u32,
    pub(crate) count: u32,
}

impl SizeRecord {
    // Links a block to the first one, before which it is to come.
    pub(crate) fn link(self, links: &mut [u32], block: u32)
        requires { block < length links.old }
        ensures { links.new ≡ slice_set links.old block self.first }
    {
        links[block as usize] = self.first;
    }
}

// One record for each size of block: 4 * 2^k cells, k from 0 to 28. A size is a class less one, asked where it is made.
#[derive(Clone, Copy)]
pub struct SizeTable {
    pub(crate) records: [SizeRecord; 29],
}

impl SizeTable {
    // No freed block of any size.
    pub(crate) fn new() -> Self
        ensures { result.records ≡ replicate 29 no_record }
    {
        SizeTable {
            records: [SizeRecord { first: 0, count: 0 }; 29],
        }
    }

    // The record of a size.
    pub(crate) fn record_of(&self, k: u32) -> SizeRecord
        requires { k < 29 }
        ensures { result ≡ slice_index_or self.now.records k no_record }
    {
        self.records[k as usize]
    }

    // Puts a block before the others of a size, to which it links.
    pub(crate) fn push(&mut self, k: u32, block: u32)
        requires within { k < 29 }
        requires few { (slice_index_or self.old.records k no_record).count + 1 < 2 ^ 32 }
        ensures { self.new.records ≡ slice_set self.old.records k (record { first = block; count = (slice_index_or self.old.records k no_record).count + 1 }) }
    {
        let record = &mut self.records[k as usize];
        record.first = block;
        record.count += 1;
    }

    // Takes the first block of a size out; the next one is then the first.
    pub(crate) fn pop(&mut self, k: u32, next: u32)
        requires within { k < 29 }
        requires some { 0 < (slice_index_or self.old.records k no_record).count }
        ensures { self.new.records ≡ slice_set self.old.records k (record { first = next; count = (slice_index_or self.old.records k no_record).count - 1 }) }
    {
        let record = &mut self.records[k as usize];
        record.first = next;
        record.count -= 1;
    }
}
