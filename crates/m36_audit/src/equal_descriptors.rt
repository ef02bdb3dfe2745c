//! Equal descriptors of several processes: the number of the first descriptor with the same words.

ghost use Rattle.std.specs.Prelude.{ℕ, ◌≡◌, ◌+◌, ◌*◌, ◌<◌, ◌≤◌, ◌^◌, Some, IfOk, OnOk, MatchOption};
ghost use Rattle.std.specs.Prelude.{length, nat_eq};
ghost use Rattle.std.specs.HashMap.{get};
ghost use Rattle.m36_model.specs.JointAudit.{most_processes};
ghost use Rattle.m36_audit.specs.Classes.{descriptors_of_process, IsDescriptorKey, AreFirstEquals};
ghost use Rattle.m36_audit.specs.Classes.{IsDescriptorRecorded, AreDescriptorsRecorded};

use crate::run::zeros;
use m36_core::Core;
use m36_desc::Dbr;
use m36_tables::{SEGMENTS, descriptor_place, segment_count, wrapped_address};
use m36_text::HashSeed;
use m36_word::NoMemory;
use std::alloc::Global;
use std::collections::HashMap;

/// The two words of a segment's descriptor as one number of 72 bits, or None unless both are in
/// core.
fn key(core: &Core, dbr: Dbr, seg: u16) -> Option<u128>
    requires { seg < 2 ^ 15 }
    ensures value { MatchOption result ((k : ℕ) → IsDescriptorKey core.now dbr seg k → ⊥)
        (λ k. IsDescriptorKey core.now dbr seg k) }
    ensures small { (k : ℕ) (h : IsDescriptorKey core.now dbr seg k) → h.odd < 2 ^ 36 }
{
    let at = match descriptor_place(core, dbr, seg) {
        Ok(at) => at,
        Err(_) => return None,
    };
    let next = wrapped_address(at + 1);
    let size = core.len();
    if at >= size {
        return None;
    }
    if next >= size {
        return None;
    }
    let even = core.peek(at).value();
    let odd = core.peek(next).value();
    Some(even as u128 * (1 << 36) + odd as u128)
}

/// Adds the bytes of a key, if there is one.
fn push_key(bytes: &mut Vec<u8>, key: Option<u128>) -> Result<(), NoMemory> {
    if let Some(key) = key {
        bytes.extend_from_slice(&key.to_le_bytes())?;
    }
    Ok(())
}

/// Adds the bytes of the keys of one process.
fn push_keys(bytes: &mut Vec<u8>, core: &Core, dbr: Dbr) -> Result<(), NoMemory> {
    for seg in 0..segment_count(dbr) {
        push_key(bytes, key(core, dbr, seg))?;
    }
    Ok(())
}

/// The seed of the hash map of all these keys, made of their bytes. So descriptors that collide
/// under one seed do not under another.
fn seed_of(alloc: Global, core: &Core, dbrs: &[Dbr]) -> Result<HashSeed, NoMemory> {
    let mut bytes = Vec::new(alloc);
    for dbr in dbrs {
        push_keys(&mut bytes, core, *dbr)?;
    }
    Ok(HashSeed::of(&bytes))
}

/// Records a descriptor by its key; without a key it does nothing. If `places` has the key, the
/// entry of this descriptor in `firsts` is the number found there. Otherwise it is the descriptor's
/// own number, which is added to `places`.
fn note(
    places: &mut HashMap<u128, u32, HashSeed>,
    firsts: &mut Vec<u32>,
    key: Option<u128>,
    table_number: u32,
) -> Result<(), NoMemory>
    requires { table_number < length firsts.old.items }
    ensures { OnOk result (IsDescriptorRecorded (get nat_eq places.old) (get nat_eq places.new)
        firsts.old.items
        firsts.new.items key table_number) }
{
    let Some(key) = key else {
        return Ok(());
    };
    match places.get(&key) {
        Some(first) => firsts[table_number as usize] = *first,
        None => {
            places.insert(key, table_number)?;
            firsts[table_number as usize] = table_number;
        }
    }
    Ok(())
}

/// Records the descriptors of process k, after those of the processes before it.
fn note_process(
    places: &mut HashMap<u128, u32, HashSeed>,
    firsts: &mut Vec<u32>,
    core: &Core,
    dbrs: &[Dbr],
    k: usize,
) -> Result<(), NoMemory>
    requires process { k < length dbrs.now }
    requires few { length dbrs.now ≤ most_processes }
    requires before { AreDescriptorsRecorded core.now dbrs.now (descriptors_of_process * k)
        (get nat_eq places.old) firsts.old.items }
    ensures { OnOk result (AreDescriptorsRecorded core.now dbrs.now
        (descriptors_of_process * (k + 1))
        (get nat_eq places.new) firsts.new.items) }
{
    let dbr = dbrs[k];
    let first = k as u32 * SEGMENTS as u32;
    for seg in 0..segment_count(dbr) {
        note(places, firsts, key(core, dbr, seg), first + seg as u32)?;
    }
    Ok(())
}

/// For each descriptor of each process that is in core, the number of the first one with the same
/// words. The contract leaves open which of these has the number. Fails only if memory runs out.
pub(crate) fn equal_descriptors(
    alloc: Global,
    core: &Core,
    dbrs: &[Dbr],
) -> Result<Vec<u32>, NoMemory>
    requires { length dbrs.now ≤ most_processes }
    ensures { IfOk result (λ firsts. AreFirstEquals core.now dbrs.now
        (descriptors_of_process * length dbrs.now) firsts.items) }
{
    let mut firsts = zeros(alloc, dbrs.len() as u32 * SEGMENTS as u32)?;
    let mut places = HashMap::with_hasher(alloc, seed_of(alloc, core, dbrs)?);
    for k in 0..dbrs.len() {
        note_process(&mut places, &mut firsts, core, dbrs, k)?;
    }
    Ok(firsts)
}
