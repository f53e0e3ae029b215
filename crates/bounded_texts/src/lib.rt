// Items that are stored one behind the other in memory of fixed size: the bytes of a text, the items of a page. What has no room is left out, so that nobody need count.
#![tactic(auto)]

ghost use Rattle.std.specs.Prelude.{◌≡◌, [], ◌∷◌, ◌++◌, ◌<◌, ◌≤◌, length, take, set, replicate, ◌+◌, min};

use arrayvec::ArrayVec;
use std::marker::Model;

// The kit's `ArrayVec`, which hands back what has no room; here that is left out.
#[derive(Drop)]
pub struct Bounded<T, const N: usize> {
    items: ArrayVec<T, N>,
}

// Bytes of a text.
pub type BoundedText<const N: usize> = Bounded<u8, N>;

impl<T, const N: usize> Model for Bounded<T, N> {
    ghost use Rattle.std.specs.Prelude.{List, length, ◌≤◌};

    ghost Value = { List T };

    ghost view = { λ t. t.items.items };

    ghost invariant = { λ t. length t.items.items ≤ N };
}

impl<T: Copy + Default, const N: usize> Bounded<T, N> {
    pub fn new() -> Self
        ensures { result ≡ [] }
    {
        let items = ArrayVec::new();
        Bounded { items }
    }

    // What is stored.
    pub fn as_slice(&self) -> &[T]
        ensures value { result.now ≡ self.now }
        ensures within { length result.now ≤ N }
    {
        self.items.as_slice()
    }

    // One item.
    pub fn put(&mut self, x: T)
        ensures { self.new ≡ take N (self.old ++ x ∷ []) }
    {
        let _ = self.items.try_push(x);
    }

    // All of some items.
    pub fn put_all(&mut self, words: &[T])
        ensures { self.new ≡ take N (self.old ++ words.now) }
    {
        let n = words.len().min(self.items.remaining_capacity());
        let _ = self.items.try_extend_from_slice(&words[..n]);
    }
}

impl<const N: usize> Bounded<u8, N> {
    // n times the same byte.
    pub fn repeat(&mut self, b: u8, n: usize)
        ensures { self.new ≡ take N (self.old ++ replicate n b) }
    {
        for _ in 0..n.min(self.items.remaining_capacity()) {
            self.items.push(b);
        }
    }

    // Another byte at a place.
    pub fn set(&mut self, k: usize, b: u8)
        requires { k < length self.old }
        ensures { self.new ≡ set self.old k b }
    {
        self.items[k] = b;
    }

    // n times a byte at a place; what stands behind it goes on.
    pub fn insert(&mut self, k: usize, b: u8, n: usize)
        requires { k ≤ length self.old }
        ensures front { take k self.new ≡ take k self.old }
        ensures grows { length self.new ≡ min N (length self.old + n) }
    {
        let m = n.min(self.items.capacity() - k);
        self.repeat(b, n);
        let behind = &mut self.items[k..];
        behind.rotate_right(m);
        behind[..m].fill(b);
    }
}
