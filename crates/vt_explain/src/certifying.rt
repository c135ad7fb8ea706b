//! The certificate of a list of entries.
ghost use Rattle.std.specs.Prelude.{◌≡◌, ◌≤◌, List, None, IfOk, length};
ghost use Rattle.vt_explain.specs.Certificates.{IsCertificate};
ghost use Rattle.vt_explain.specs.declared.hop_why.HopWhy.{HopWhy};
ghost use Rattle.vt_world.specs.Laws.{moments};

use crate::HopWhy;
use crate::reader::Reader;
use std::alloc::Global;
use vt_base::NoMemory;
use vt_check::Witness;
use vt_events::Entry;
use vt_world::{World, displays_are_lawful_from};

/// The certificate of the switches that the calls of these entries make, one after another, from this machine on.
/// Whether their answers are the machine's, and whether their callers have programs, doesn't matter.
pub fn certificate(alloc: Global, start: World, entries: &[Entry]) -> Result<Vec<HopWhy>, NoMemory>
    requires quiet { start.display.pending ≡ None }
    requires few { length entries.now ≤ 4_294_967_295 }
    ensures cert { IfOk result (λ c. IsCertificate (moments start entries.now) c.items) }
    ensures only { IfOk result (λ c. (other : List HopWhy)
        → IsCertificate (moments start entries.now) other → other ≡ c.items) }
{
    displays_are_lawful_from(&start);
    let mut world = start;
    let mut reader = Reader::new(alloc);
    for i in 0..entries.len() {
        let entry = &entries[i];
        let _reply = world.call(alloc, entry.caller, &entry.event)?; // the result has no use here
        reader.see(alloc, i as u32, entry, &world)?;
    }
    Ok(reader.into_items())
}
