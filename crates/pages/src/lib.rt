// A page: the items of an explanation one behind the other, each a phrase and the numbers that are filled into it. An item for which there is no room is left out.
#![tactic(auto)]

ghost use Rattle.std.specs.Prelude.{◌≡◌, [], ◌≤◌, length};
ghost use Rattle.pages.specs.PagePromises.{with_item, plain, bound};

use bounded_texts::Bounded;
use std::marker::Model;

// How many items there may be.
const ITEMS: usize = 400;

// The numbers of bindings: of the abstract and the concrete state, the inputs, the outputs, the concrete and the abstract state after.
// Form 1: a group whose values the phrase does not show has the number 0, which is that of its first binding too: with an Option each number would have to be there again where its values are
// put into their slots.
#[derive(Clone, Copy, Default)]
pub struct Bindings {
    pub a: usize,
    pub c: usize,
    pub i: usize,
    pub o: usize,
    pub k: usize,
    pub b: usize,
}

// How many variables the groups have: of the abstract and the concrete state, inputs, outputs.
#[derive(Clone, Copy, Default)]
pub struct Counts {
    pub va: usize,
    pub vc: usize,
    pub vi: usize,
    pub vo: usize,
}

// A phrase, an operation, two numbers, and numbers of bindings.
// Form 1: an item takes any number as its phrase (phrases/src/words.rt); an enum would narrow a public field. Its operation is 0 where the phrase shows none, and the number of an ending where it
// shows an ending, as n and m are what the phrase shows of them: which of the three it shows its words say, so that with an Option `put_phrase` would unwrap it with 0 at each look.
#[derive(Clone, Copy, Default)]
pub struct Item {
    pub phrase: usize,
    pub operation: usize,
    pub n: usize,
    pub m: usize,
    pub bindings: Bindings,
}

// A phrase with an operation and two numbers, and no binding.
pub fn plain(phrase: usize, operation: usize, n: usize, m: usize) -> Item
    ensures { result ≡ plain phrase operation n m }
{
    Item {
        phrase,
        operation,
        n,
        m,
        bindings: Bindings::default(),
    }
}

// The items that are said.
#[derive(Drop)]
pub struct Page {
    items: Bounded<Item, ITEMS>,
}

impl Model for Page {
    ghost use Rattle.std.specs.Prelude.{List};
    ghost use Rattle.pages.specs.declared.Item.{Item};

    ghost Value = { List Item };

    ghost view = { λ p. p.items };
}

impl Page {
    pub fn new() -> Page
        ensures { result ≡ [] }
    {
        Page {
            items: Bounded::new(),
        }
    }

    // The items that are said, the first one first.
    pub fn items(&self) -> &[Item]
        ensures value { result.now ≡ self.now }
        ensures within { length result.now ≤ 400 }
    {
        self.items.as_slice()
    }

    pub fn add(&mut self, e: Item)
        ensures { self.new ≡ with_item self.old e }
    {
        self.items.put(e);
    }

    // A phrase alone.
    pub fn say(&mut self, phrase: usize)
        ensures { self.new ≡ with_item self.old (plain phrase 0 0 0) }
    {
        self.say_of(phrase, 0, 0, 0);
    }

    // A phrase with an operation and two numbers.
    pub fn say_of(&mut self, phrase: usize, operation: usize, n: usize, m: usize)
        ensures { self.new ≡ with_item self.old (plain phrase operation n m) }
    {
        self.add(plain(phrase, operation, n, m));
    }

    // A phrase with an operation alone.
    pub fn say_for(&mut self, phrase: usize, operation: usize)
        ensures { self.new ≡ with_item self.old (plain phrase operation 0 0) }
    {
        self.say_of(phrase, operation, 0, 0);
    }

    // A phrase with an operation and bindings.
    pub fn say_at(&mut self, phrase: usize, operation: usize, bindings: Bindings)
        ensures { self.new ≡ with_item self.old (bound phrase operation bindings) }
    {
        self.add(Item {
            bindings,
            ..plain(phrase, operation, 0, 0)
        });
    }
}
