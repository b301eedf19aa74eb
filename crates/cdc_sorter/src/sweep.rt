//! Which branches that have ended a later cut may still want: those that stood open before an entry that began an open
//! branch or a committed one that is noted.

ghost use Rattle.std.specs.Prelude.{◌≡◌, ◌++◌, ◌&&◌, nat_lt, nat_le, length, map, filter, slice_index_or, IfOk, OnOk};
ghost use Rattle.std.specs.List.{list_any};
ghost use Rattle.std.specs.List.Sorted.{IsPermutation, IsNonDecreasing};
ghost use Rattle.cdc_sorter.specs.Trail.{stood_at_some, began_numbers};

use crate::trail::{Ended, Recent};
use cdc_base::Memory;
use cdc_open::OpenTable;
use std::alloc::Global;

// Whether there is a number at an index, and it is at most a last one.
fn is_at_most(numbers: &[u64], index: usize, last: u64) -> bool
    ensures { result ≡ (nat_lt index (length numbers.now) && nat_le (slice_index_or numbers.now index 0) last) }
{
    index < numbers.len() && numbers[index] <= last
}

// Whether one of these numbers, in order, is above one and at most another.
fn is_between(numbers: &[u64], began: u64, ended: u64) -> bool
    requires { IsNonDecreasing numbers.now }
    ensures { result ≡ list_any (λ number. nat_lt began number && nat_le number ended) numbers.now }
{
    if ended <= began {
        return false;
    }
    match numbers.binary_search(&(began + 1)) {
        Ok(_) => true,
        Err(index) => is_at_most(numbers, index, ended),
    }
}

// Whether a branch that has ended stood open before one of the entries of these numbers, in order.
fn is_wanted(branch: &Ended, numbers: &[u64]) -> bool
    requires { IsNonDecreasing numbers.now }
    ensures { result ≡ stood_at_some numbers.now branch.now }
{
    is_between(numbers, branch.entry, branch.ended)
}

/// Keeps the branches that stood open before one of the entries of these numbers, in order.
pub fn keep_wanted(ended: &mut Vec<Ended>, numbers: &[u64])
    requires { IsNonDecreasing numbers.now }
    ensures { ended.new.items ≡ filter (stood_at_some numbers.now) ended.old.items }
{
    let mut kept = 0;
    for index in 0..ended.len() {
        let wanted = is_wanted(&ended[index], numbers);
        if wanted {
            ended.swap(kept, index);
            kept += 1;
        }
    }
    ended.truncate(kept);
}

// Adds the numbers of the entries that began open branches.
fn push_open(numbers: &mut Vec<u64>, opened: &OpenTable) -> Result<(), Memory>
    ensures { OnOk result (numbers.new.items ≡ numbers.old.items ++ map (λ s. s.branch.entry) opened.now) }
{
    for (_, standing) in opened.iter() {
        numbers.push(standing.entry)?;
    }
    Ok(())
}

// Adds the numbers of the entries that began committed branches.
fn push_recent(numbers: &mut Vec<u64>, recent: &[Recent]) -> Result<(), Memory>
    ensures { OnOk result (numbers.new.items ≡ numbers.old.items ++ map (λ r. r.stand.entry) recent.now) }
{
    for branch in recent {
        numbers.push(branch.stand.entry)?;
    }
    Ok(())
}

/// The numbers of the entries that began open branches and committed ones, in order.
pub fn begun_in_order(
    alloc: Global,
    opened: &OpenTable,
    recent: &[Recent],
) -> Result<Vec<u64>, Memory>
    ensures same { IfOk result (λ numbers. IsPermutation (began_numbers opened.now recent.now) numbers.items) }
    ensures rising { IfOk result (λ numbers. IsNonDecreasing numbers.items) }
{
    let count = opened.len().saturating_add(recent.len());
    let mut numbers = Vec::with_capacity(alloc, count)?;
    push_open(&mut numbers, opened)?;
    push_recent(&mut numbers, recent)?;
    numbers.sort_unstable();
    Ok(numbers)
}
