// At most N bytes, held in place; the places behind them are 0. No Vec, since no call allocates; no ArrayVec,
// which is no Copy and does not say what stands behind its bytes.
ghost use Rattle.std.specs.Prelude.{◌≡◌, ◌<◌, ◌≤◌, [], length, MatchOption};
ghost use Rattle.vocab.specs.Buffers.{padded};

use crate::limits::LONGEST_CONTENTS;
use std::marker::Model;

#[derive(Clone, Copy, PartialEq, Eq, Hash, Debug)]
pub struct Bytes<const N: usize> {
    len: usize,
    held: [u8; N],
}

impl<const N: usize> Model for Bytes<N> {
    ghost use Rattle.std.specs.Prelude.{◌≡◌, ℕ, ◌≤◌, List, length, take};
    ghost use Rattle.vocab.specs.Buffers.{padded};
    ghost use Rattle.vocab.specs.Places.{front_length};
    ghost use Rattle.std.proofs.Common.{sym, ap, ◌∙◌};

    ghost Value = { List ℕ };

    ghost view = { λ b. take b.len b.held };

    ghost invariant = { λ b. (b.len ≤ N) × (b.held ≡ padded N (take b.len b.held)) };

    ghost inverse = { λ l. record { len = length l; held = padded N l } };

    ghost inverse_ok = { λ b h. ap (λ n. record { len = n; held = padded N (take b.len b.held) }) (front_length N b.len b.held h.0 h.1) ∙ ap (λ bs. record { len = b.len; held = bs }) (sym h.1) };
}

impl<const N: usize> Bytes<N> {
    // None where there are more than N.
    pub fn new(bytes: &[u8]) -> Option<Bytes<N>>
        ensures { MatchOption result (N < length bytes.now) (λ b. (length bytes.now ≤ N) × (b ≡ bytes.now)) }
    {
        let len = bytes.len();
        if len > N {
            return None;
        }
        let mut held = [0; N];
        let places = &mut held[..];
        places[0..len].copy_from_slice(bytes);
        Some(Bytes { len, held })
    }

    pub fn empty() -> Bytes<N>
        ensures { result ≡ [] }
    {
        Bytes {
            len: 0,
            held: [0; N],
        }
    }

    pub fn as_slice(&self) -> &[u8]
        ensures value { result.now ≡ self.now }
        ensures short { length result.now ≤ N }
    {
        let places = &self.held[..];
        &places[0..self.len]
    }

    // The bytes, and zeros behind them.
    pub fn filled(&self) -> &[u8]
        ensures value { result.now ≡ padded N self.now }
        ensures short { length self.now ≤ N }
    {
        self.held.as_slice()
    }
}

// What a file holds.
pub type Contents = Bytes<LONGEST_CONTENTS>;
