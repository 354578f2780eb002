//! The numbers of the channels of which one context is an end.
ghost use Rattle.std.specs.Prelude.{◌≡◌, ℕ, ◌<◌, ◌≤◌, [], OnOk, length, slice_index_or};
ghost use Rattle.std.specs.List.Sorted.{IsNonDecreasing};
ghost use Rattle.wx_port.specs.Numbers.{has_number, with_number, MayFollow};

use std::alloc::Global;
use std::marker::Model;
use wx_id::NoMemory;

/// Numbers in rising order. Contracts see their list, and how many more fit with no allocation.
#[derive(Debug, Drop)]
pub struct Numbers {
    list: Vec<u64>,
}

impl Model for Numbers {
    ghost use Rattle.std.specs.Prelude.{◌-◌, vec_len, vec_capacity};
    ghost use Rattle.std.specs.List.Sorted.{IsNonDecreasing};
    ghost use Rattle.wx_port.specs.Numbers.{NumbersState};

    ghost Value = { NumbersState };

    ghost view = { λ a. record { list = a.list.items; room = vec_capacity a.list - vec_len a.list } };

    ghost invariant = { λ a. IsNonDecreasing a.list.items };
}

impl Numbers {
    /// No numbers.
    pub fn new(alloc: Global) -> Numbers
        ensures { result.list ≡ [] }
    {
        Numbers {
            list: Vec::new(alloc),
        }
    }

    /// Makes room for one more.
    pub fn make_room(&mut self) -> Result<(), NoMemory>
        ensures list { self.new.list ≡ self.old.list }
        ensures room { self.old.room ≤ self.new.room }
        ensures ok { OnOk result (0 < self.new.room) }
    {
        self.list.reserve(1)?;
        Ok(())
    }

    /// Puts a number after the others. Takes no memory.
    pub fn push(&mut self, k: u64)
        requires { MayFollow k self.old }
        ensures { self.new ≡ with_number k self.old }
    {
        self.list.push_reserved(k);
    }

    /// The numbers.
    pub fn list(&self) -> &[u64]
        ensures list { result.now ≡ self.now.list }
        ensures rising { IsNonDecreasing result.now }
    {
        &self.list
    }
}

/// Whether k is one of these numbers: a search by halves.
pub fn has_number(numbers: &[u64], k: u64) -> bool
    requires { IsNonDecreasing numbers.now }
    ensures { result ≡ has_number numbers.now k }
{
    numbers.binary_search(&k).is_ok()
}

/// How many of these numbers are below k: a search by halves.
pub fn count_below(numbers: &[u64], k: u64) -> usize
    requires { IsNonDecreasing numbers.now }
    ensures below { (i : ℕ) → i < result → slice_index_or numbers.now i 0 < k }
    ensures above { (i : ℕ) → result ≤ i → i < length numbers.now → k ≤ slice_index_or numbers.now i 0 }
{
    numbers.partition_point(|n| *n < k)
}
