//! The home of each item of a packing.
ghost use Rattle.std.specs.Prelude.{◌≡◌, ◌≢◌, ◌<◌, ℕ, length, slice_index, All, IfOk};
ghost use Rattle.sched_base.specs.FirstFit.{packed, homes};
ghost use Rattle.server_pack.specs.Servers.{server_at, rates_of, items_of};

use sched_base::NoMemory;
use server_pack::Packing;
use std::alloc::Global;

/// The server of each item, where first fit has packed items of these rates.
pub(crate) fn homes_of(
    alloc: Global,
    packing: &Packing,
    rates: &[u128],
) -> Result<Vec<u32>, NoMemory>
    requires rates { rates_of packing.now.servers ≡ packed packing.now.scale rates.now }
    requires members { (b : ℕ) → (server_at packing.now.servers b).members ≡ items_of (homes packing.now.scale rates.now) b }
    ensures { IfOk result (λ told. told.items ≡ homes packing.now.scale rates.now) }
{
    let mut told = vec![in alloc; 0u32; rates.len()]?;
    write_homes(&mut told, packing);
    Ok(told)
}

// Writes each server as the home of its items, none of which another server has.
fn write_homes(homes: &mut [u32], packing: &Packing)
    requires inside { (s : ℕ) → All (λ item. item < length homes.old) (server_at packing.now.servers s).members }
    requires apart { (s t i j : ℕ) → i < length (server_at packing.now.servers s).members → j < length (server_at packing.now.servers t).members →
        slice_index (server_at packing.now.servers s).members i ≡ slice_index (server_at packing.now.servers t).members j → s ≡ t }
    ensures { (s i : ℕ) → s < length packing.now.servers → i < length (server_at packing.now.servers s).members →
        slice_index homes.new (slice_index (server_at packing.now.servers s).members i) ≡ s }
{
    for s in 0..packing.servers() {
        write_home(homes, packing.members(s), s);
    }
}

// Writes server s as the home of these items.
fn write_home(homes: &mut [u32], items: &[u32], s: u32)
    requires { All (λ item. item < length homes.old) items.now }
    ensures written { (i : ℕ) → i < length items.now → slice_index homes.new (slice_index items.now i) ≡ s }
    ensures others { (j : ℕ) → ((i : ℕ) → i < length items.now → slice_index items.now i ≢ j) →
        slice_index homes.new j ≡ slice_index homes.old j }
{
    for item in items {
        homes[*item as usize] = s;
    }
}
