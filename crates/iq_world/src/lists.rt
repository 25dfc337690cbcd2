//! Plain work on lists of block numbers.
ghost use Rattle.std.specs.Prelude.{◌≡◌, ◌==◌, ◌≤◌, nat_lt, length, IfOk, OnOk};
ghost use Rattle.std.specs.List.{position_or_len, remove};
ghost use Rattle.iq_world.specs.World.{holds, times, without, put, put_all};
ghost use Rattle.iq_world.specs.Steps.{less, are_distinct, are_from};

use iq_base::NoMemory;
use std::alloc::Global;

/// Whether a number stands in a list.
pub fn holds(numbers: &[u32], number: u32) -> bool
    ensures { result ≡ holds numbers.now number }
{
    numbers.contains(&number)
}

/// The numbers of one list that another lacks, in their order.
pub fn without(alloc: Global, numbers: &[u32], others: &[u32]) -> Result<Vec<u32>, NoMemory>
    ensures { IfOk result (λ v. v.items ≡ without numbers.now others.now) }
{
    let mut left = Vec::new(alloc);
    for number in numbers {
        if holds(others, *number) {
            continue;
        }
        left.push(*number)?;
    }
    Ok(left)
}

/// The place of the first number that is greater, or the length where none is.
fn place_of_greater(numbers: &[u32], number: u32) -> usize
    ensures place { result ≡ position_or_len (λ x. nat_lt number x) numbers.now }
    ensures within { result ≤ length numbers.now }
{
    for (at, other) in numbers.iter().enumerate() {
        if number < *other {
            return at;
        }
    }
    numbers.len()
}

/// One more number, before the first that is greater.
pub fn put(numbers: &mut Vec<u32>, number: u32) -> Result<(), NoMemory>
    ensures { OnOk result (numbers.new.items ≡ put numbers.old.items number) }
{
    let at = place_of_greater(numbers, number);
    numbers.insert(at, number)?;
    Ok(())
}

/// More numbers, each before the first that is greater.
pub fn put_all(numbers: &mut Vec<u32>, more: &[u32]) -> Result<(), NoMemory>
    ensures { OnOk result (numbers.new.items ≡ put_all numbers.old.items more.now) }
{
    for number in more {
        put(numbers, *number)?;
    }
    Ok(())
}

/// The place of the first of a number, or the length where there is none.
fn place_of(numbers: &[u32], number: u32) -> usize
    ensures { result ≡ position_or_len (λ x. x == number) numbers.now }
{
    for (at, other) in numbers.iter().enumerate() {
        if *other == number {
            return at;
        }
    }
    numbers.len()
}

/// A list without the first of a number that it has.
pub fn less(numbers: &mut Vec<u32>, number: u32)
    ensures { numbers.new.items ≡ less numbers.old.items number }
{
    let at = place_of(numbers, number);
    if at < numbers.len() {
        numbers.remove(at);
    }
}

/// How often a number stands in a list.
fn times(numbers: &[u32], number: u32) -> usize
    ensures { result ≡ times number numbers.now }
{
    numbers.iter().filter(|x| **x == number).count()
}

/// Whether no number stands twice in a list.
pub fn are_distinct(numbers: &[u32]) -> bool
    ensures { result ≡ are_distinct numbers.now }
{
    for number in numbers {
        if times(numbers, *number) == 1 {
            continue;
        }
        return false;
    }
    true
}

/// Whether each number of the first list stands in one of the others.
pub fn are_from(numbers: &[u32], first: &[u32], second: &[u32]) -> bool
    ensures { result ≡ are_from numbers.now first.now second.now }
{
    for number in numbers {
        if holds(first, *number) || holds(second, *number) {
            continue;
        }
        return false;
    }
    true
}
