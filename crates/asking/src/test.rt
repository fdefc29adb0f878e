// What a search through objects looks for.
ghost use Rattle.std.specs.Prelude.{◌≡◌, ℕ, Bool, ◌&&◌, List, ◌==◌, nat_lt};
ghost use Rattle.vocab.specs.Names.{same_name};

use vocab::name::same;
use vocab::number::Number;

// What a test can ask of an object; each is asked only where it is needed.
pub trait Head {
    ghost number: { Self → ℕ };

    ghost parent: { Self → ℕ };

    ghost name: { Self → List ℕ };

    fn number(&self) -> Number
        ensures { result ≡ number self.now };

    fn parent(&self) -> Number
        ensures { result ≡ parent self.now };

    fn name(&self) -> &[u8]
        ensures { result.now ≡ name self.now };
}

// By the number, the parent and the name of an object. No closure: a public function that takes one would ask
// of its caller that it may be called.
pub trait Test {
    ghost passes: { Self → ℕ → ℕ → List ℕ → Bool };

    fn test<H: Head>(&self, head: &H) -> bool
        ensures { result ≡ passes self.now (H.number head.now) (H.parent head.now) (H.name head.now) };
}

#[derive(Clone, Copy)]
pub struct HasNumber(pub Number);

impl Test for HasNumber {
    ghost passes = { λ t x p n. x == t.0 };

    fn test<H: Head>(&self, head: &H) -> bool {
        head.number() == self.0
    }
}

#[derive(Clone, Copy)]
pub struct HasPlace<'a> {
    pub parent: Number,
    pub name: &'a [u8],
}

impl Test for HasPlace<'_> {
    ghost passes = { λ t x p n. (p == t.parent) && same_name n t.name.now };

    fn test<H: Head>(&self, head: &H) -> bool {
        head.parent() == self.parent && same(head.name(), self.name)
    }
}

#[derive(Clone, Copy)]
pub struct HasParent(pub Number);

impl Test for HasParent {
    ghost passes = { λ t x p n. p == t.0 };

    fn test<H: Head>(&self, head: &H) -> bool {
        head.parent() == self.0
    }
}

// An object of a parent, of a number above another.
#[derive(Clone, Copy)]
pub struct Follows {
    pub parent: Number,
    pub above: Number,
}

impl Test for Follows {
    ghost passes = { λ t x p n. (p == t.parent) && nat_lt t.above x };

    fn test<H: Head>(&self, head: &H) -> bool {
        head.parent() == self.parent && self.above < head.number()
    }
}
