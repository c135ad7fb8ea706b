use std::alloc::Global;
use vt_base::NoMemory;

/// The number of buckets.
const BUCKETS: usize = 65_536;

/// Numbers from 0 on, in buckets by their digests. It only proposes: no contract says which numbers it gives.
#[derive(Drop)]
pub(crate) struct Places {
    // the newest number of each bucket, plus one
    heads: Vec<u32>,
    // of each number its digest, and the number before it in its bucket, plus one
    digests: Vec<u64>,
    links: Vec<u32>,
}

impl Places {
    /// No number yet.
    pub(crate) fn new(alloc: Global) -> Result<Places, NoMemory> {
        let mut heads = Vec::new(alloc);
        heads.resize(BUCKETS, 0)?;
        Ok(Places {
            heads,
            digests: Vec::new(alloc),
            links: Vec::new(alloc),
        })
    }

    /// Adds the next number.
    pub(crate) fn add(&mut self, digest: u64) -> Result<(), NoMemory> {
        let bucket = bucket_of(digest);
        let Some(head) = self.heads.get(bucket) else {
            return Ok(());
        };
        self.links.push(*head)?;
        self.digests.push(digest)?;
        let Ok(newest) = u32::try_from(self.digests.len()) else {
            return Ok(());
        };
        if let Some(head) = self.heads.get_mut(bucket) {
            *head = newest;
        }
        Ok(())
    }

    /// The newest number with this digest below `bound`.
    pub(crate) fn below(&self, digest: u64, bound: usize) -> Option<usize> {
        let mut at = match self.heads.get(bucket_of(digest)) {
            Some(head) => *head as usize,
            None => 0,
        };
        for _step in 0..self.digests.len() {
            if at == 0 {
                return None;
            }
            let place = at - 1;
            match self.digests.get(place) {
                Some(other) => {
                    if place < bound && *other == digest {
                        return Some(place);
                    }
                }
                None => return None,
            }
            at = match self.links.get(place) {
                Some(link) => *link as usize,
                None => 0,
            };
        }
        None
    }
}

fn bucket_of(digest: u64) -> usize {
    ((digest ^ (digest >> 31)) % 65_536) as usize
}
