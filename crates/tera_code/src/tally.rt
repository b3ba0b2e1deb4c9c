// What is told of each instruction that is handed out.
ghost use Rattle.std.specs.Prelude.{◌≡◌, ◌+◌, ℕ, Bool, false};
ghost use Rattle.tera_code.specs.Budget.{left_of, is_over};

use std::marker::{Brand, PhantomData};

/// Is told of each instruction that is handed out, and may know of a budget.
pub trait Tally: Drop {
    /// That it was told of so many.
    ghost told: { Self → ℕ → Type 0 };

    /// Whether so many are more than the budget has.
    ghost is_over: { ℕ → Bool };

    /// Is told of one more.
    fn count_one(&mut self)
        ensures { (n : ℕ) → told self.old n → told self.new (n + 1) };

    /// Whether it was told of more than the budget has.
    fn is_spent(&self) -> bool
        ensures { (n : ℕ) → told self.now n → result ≡ is_over n };
}

/// Is told nothing, and takes no memory: there is no budget.
#[derive(Drop)]
pub struct Untold;

impl Tally for Untold {
    ghost told = { λ _ _. Unit {0} };

    ghost is_over = { λ _. false };

    #[inline(always)]
    fn count_one(&mut self) {}

    #[inline(always)]
    fn is_spent(&self) -> bool {
        false
    }
}

/// How many instructions a budget has. Contracts alone see it.
pub trait Allowance {
    ghost allowed: { ℕ };
}

impl Allowance for Brand {
    ghost allowed = { 0 };
}

/// A budget of instructions: how many are left, or none where more were handed out than it has.
#[derive(Drop)]
pub struct Budget<L: Allowance> {
    left: Option<usize>,
    of: PhantomData<L>,
}

impl<L: Allowance> Budget<L> {
    pub(crate) fn new(limit: usize) -> Budget<L>
        requires { limit ≡ L.allowed }
        ensures { result.left ≡ left_of L.allowed 0 }
    {
        Budget {
            left: Some(limit),
            of: PhantomData,
        }
    }
}

impl<L: Allowance> Tally for Budget<L> {
    ghost told = { λ b n. b.left ≡ left_of L.allowed n };

    ghost is_over = { is_over L.allowed };

    #[inline(always)]
    fn count_one(&mut self) {
        self.left = match self.left {
            Some(left) if left > 0 => Some(left - 1),
            _ => None,
        };
    }

    #[inline(always)]
    fn is_spent(&self) -> bool {
        self.left.is_none()
    }
}
