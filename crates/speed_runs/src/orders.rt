//! The addresses that the calls of a run are about.

ghost use Rattle.std.specs.Prelude.{◌<◌, ◌≤◌, ◌+◌, ◌^◌};

use crate::random::Random;
use std::alloc::{AllocError, Global};

/// The order in which a run goes over its lines of memory.
#[derive(Clone, Copy, Debug, PartialEq, Eq)]
pub enum Order {
    /// Doubleword by doubleword, as a program mostly goes.
    Quiet,
    /// Any doubleword of any line.
    Random,
    /// Any of the lines that a search by the bits of their numbers finds last, at its end.
    Worst,
}

impl Order {
    /// The order with a name.
    pub fn named(name: &str) -> Order {
        match name {
            "random" => Order::Random,
            "worst" => Order::Worst,
            _ => Order::Quiet,
        }
    }

    /// The address of a line, by its number among those of a run.
    pub fn line(self, number: u32) -> u64
        ensures { result + 128 ≤ 2 ^ 64 }
    {
        match self {
            Order::Quiet | Order::Random => 0x8000_1000 + 64 * u64::from(number),
            Order::Worst => deep_line(number),
        }
    }

    /// The address of call `k`.
    fn address(self, k: u32, entries: u32, random: &mut Random) -> u64
        requires { 0 < entries }
        ensures { result + 64 ≤ 2 ^ 64 }
    {
        match self {
            Order::Quiet => self.line(k / 8 % entries) + u64::from(k % 8) * 8,
            Order::Random => {
                self.line(random.below(u64::from(entries)) as u32) + random.below(8) * 8
            }
            Order::Worst => self.line(random.below(u64::from(entries)) as u32) + 60,
        }
    }

    /// The addresses of the calls of a run over so many lines.
    pub fn addresses(self, alloc: Global, entries: u32, calls: u32) -> Result<Vec<u64>, AllocError>
        requires { 0 < entries }
    {
        let mut random = Random::new(7);
        let mut addresses = Vec::with_capacity(alloc, calls as usize)?;
        for k in 0..calls {
            addresses.push(self.address(k, entries, &mut random))?;
        }
        Ok(addresses)
    }
}

/// A line whose number has as many zeros at its end as may be: 40 of them, behind 40 others that each have
/// one more than the one before.
fn deep_line(number: u32) -> u64
    ensures { result + 128 ≤ 2 ^ 64 }
{
    if number < 40 {
        (64 << number) % (1 << 46)
    } else {
        64 * (u64::from(number % 65536) + 1 << 40)
    }
}

/// The numbers from 0 up, each block of so many in any order.
pub fn shuffled(alloc: Global, block: u32, count: u32) -> Result<Vec<u64>, AllocError>
    requires { 0 < block }
{
    let mut random = Random::new(7);
    let mut numbers = Vec::with_capacity(alloc, count as usize)?;
    for k in 0..count {
        numbers.push(u64::from(k))?;
        let behind = random.below(u64::from(k % block) + 1) as usize;
        let last = numbers.len() - 1;
        if behind <= last {
            numbers.swap(last, last - behind);
        }
    }
    Ok(numbers)
}
