// Hashes of keys.
ghost use Rattle.std.specs.Prelude.{◌≡◌, ◌<◌, IfOk, map, length};
ghost use Rattle.column_table.specs.Table.{value_of};
ghost use Rattle.key_codes.specs.Codes.{keys_of};
ghost use Rattle.key_codes.specs.Hashes.{fnv, fnv_from, hash_of, mix, value_bytes};
ghost use Rattle.key_codes.specs.Keys.{IsInRange, item_key};

use crate::KeyRows;
use rpt_base::{Cell, Memory};
use std::alloc::Global;

// The hash of no bytes.
const BASIS: u64 = 0xcbf2_9ce4_8422_2325;

const PRIME: u64 = 0x0100_0000_01b3;

/// The hash FNV-1a of some bytes, with 64 bits (Fowler, Noll and Vo).
pub fn fnv(bytes: &[u8]) -> u64
    ensures { result ≡ fnv bytes.now }
{
    fnv_from(BASIS, bytes)
}

/// Mixes the bits of a number, so that each reaches all others: the last step of the generator SplitMix64 (Steele, Lea and Flood 2014).
pub fn mix(number: u64) -> u64
    ensures { result ≡ mix number }
{
    let first = (number ^ (number >> 30)).wrapping_mul(0xbf58_476d_1ce4_e5b9);
    let second = (first ^ (first >> 27)).wrapping_mul(0x94d0_49bb_1331_11eb);
    second ^ (second >> 31)
}

/// The hash of each item's key: `mix` of `fnv` of the key's bytes. A number is eight bytes in two's complement, the lowest first; a text
/// is its length in eight bytes, the lowest first, and then its bytes. Keys that are equal have equal hashes.
///
/// Bytes are hashed as they come, so nothing is allocated for an item. `Memory` comes for want of memory alone.
pub fn hashes(alloc: Global, keys: &KeyRows<'_>) -> Result<Vec<u64>, Memory>
    requires range { IsInRange keys.now }
    ensures { IfOk result (λ hashes. hashes.items ≡ map hash_of (keys_of keys.now)) }
{
    let mut hashes = Vec::with_capacity(alloc, keys.rows.len())?;
    for item in 0..keys.rows.len() {
        hashes.push(item_hash(keys, item))?;
    }
    Ok(hashes)
}

// The hash of an item's key.
fn item_hash(keys: &KeyRows<'_>, item: usize) -> u64
    requires range { IsInRange keys.now }
    requires item { item < length keys.now.rows.now }
    ensures { result ≡ hash_of (item_key keys.now item) }
{
    let mut hash = BASIS;
    for place in 0..keys.columns.len() {
        hash = with_cell(hash, keys.cell(item, place));
    }
    mix(hash)
}

// A hash and the bytes of one value more.
fn with_cell(hash: u64, cell: Cell<'_>) -> u64
    ensures { result ≡ fnv_from hash (value_bytes (value_of cell.entry)) }
{
    match cell {
        Cell::Int(number) => fnv_from(hash, &number.to_le_bytes()),
        Cell::Text(text) => fnv_from(fnv_from(hash, &text.len().to_le_bytes()), text),
    }
}

// FNV-1a from a hash on.
fn fnv_from(hash: u64, bytes: &[u8]) -> u64
    ensures { result ≡ fnv_from hash bytes.now }
{
    let mut hash = hash;
    for byte in bytes {
        hash = (hash ^ u64::from(*byte)).wrapping_mul(PRIME);
    }
    hash
}
