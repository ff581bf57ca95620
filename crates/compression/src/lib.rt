// The pipe, and a block forward and back, on values.
#![tactic(auto)]

ghost use Rattle.std.specs.Prelude.{◌≡◌};
ghost use Rattle.digest.specs.Step.{forward};
ghost use Rattle.pipe.specs.Backward.{backward};

use division::{left, right, right_undone, separated};
use half::{barred_left_half, left_half, right_half};
use product::{barred_product, joined, product};
use std::alloc::AllocError;
use std::marker::Model;
use tables::Width;
use word::{Unsigned, Word};

// Words 0 to 7 and words 8 to 15. Contracts see it as the definitions' pipe.
#[derive(Copy)]
pub struct Pipe<U: Unsigned> {
    pub first: [Word<U>; 8],
    pub second: [Word<U>; 8],
}

impl<U: Unsigned> Model for Pipe<U> {
    ghost use Rattle.digest.specs.Pipe as digest;

    ghost Value = { digest.Pipe };

    ghost view = { λ p. record { first = p.first; second = p.second } };

    ghost inverse = { λ p. record { first = p.first; second = p.second } };
}

impl<U: Unsigned> Clone for Pipe<U> {
    ghost use Rattle.std.specs.Prelude.{◌≡◌, ⊤};

    ghost is_clone = { λ x y. y ≡ x };

    ghost is_infallible = { λ _. ⊤ };

    fn clone(&self) -> Result<Pipe<U>, AllocError> {
        Ok(*self)
    }
}

// The pipe after a block whose halves are `x` and `y`: the products of the definition by their halves. D1 and D7, whose first operand is barred, are
// barred products. D4 and D5 share the left half of D3, and D6 and D7 the right half of D5.
pub fn forward<U: Width>(p: Pipe<U>, x: [Word<U>; 8], y: [Word<U>; 8]) -> Pipe<U>
    ensures { result ≡ forward U.tables p x y }
{
    let c0 = p.second;
    let c1 = p.first;
    let d1 = joined(barred_left_half(y), right_half(x));
    let d2 = joined(left_half(d1), right_half(y));
    let d3 = joined(left_half(c0), right_half(d1));
    let left = left_half(d3);
    let d4 = joined(left, right_half(d2));
    let d5 = joined(left, right_half(c1));
    let right = right_half(d5);
    let d6 = joined(left_half(d4), right);
    let d7 = joined(barred_left_half(x), right);
    let d8 = joined(left_half(d7), right_half(d6));
    Pipe {
        first: d7,
        second: d8,
    }
}

// The pipe before a block whose halves are `x` and `y`, by the products and divisions of the definition. Only D5, whose divisor is barred, is put
// together from its parts: the barred left half, and the right half undone.
pub fn backward<U: Width>(p: Pipe<U>, x: [Word<U>; 8], y: [Word<U>; 8]) -> Pipe<U>
    ensures { result ≡ backward U.tables p x y }
{
    let d7 = p.first;
    let d8 = p.second;
    let d1 = barred_product(y, x);
    let d2 = product(d1, y);
    let d5 = right_undone(separated(d7, barred_left_half(x)));
    let d6 = left::divide(d7, d8);
    let d4 = right::divide(d6, d5);
    let d3 = right::divide(d4, d2);
    let c0 = right::divide(d3, d1);
    let c1 = left::divide(d3, d5);
    Pipe {
        first: c1,
        second: c0,
    }
}
