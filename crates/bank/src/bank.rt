// A bank of cabinets, over its post.
ghost use Rattle.std.specs.Prelude.{◌≡◌, Some, None, MatchResult};
ghost use Rattle.cable.specs.declared.refusal.Refusal.TheVariants.{Bare};
ghost use Rattle.bank.specs.Banks.{bank_of, New};

use crate::cabinets::Cabinets;
use cable::refusal::Refusal;

// A bank: one to sixteen vending machines, its cabinets, that share one card terminal, with the post between them.
#[derive(Drop)]
pub struct Bank<P> {
    // a bank has no cabinets until it is planted
    pub(crate) cabinets: Option<Cabinets>,
    pub(crate) post: P,
}

impl<P> Bank<P> {
    // A bare bank.
    pub fn new(post: P) -> Bank<P>
        ensures value { New post (bank_of result) }
    {
        Bank {
            cabinets: None,
            post,
        }
    }

    // The cabinets, if they are planted. For a change a call asks for them itself: a method would lend the post with them.
    pub(crate) fn cabinets(&self) -> Result<&Cabinets, Refusal>
        ensures cases { MatchResult result (λ cabinets. self.now.cabinets ≡ Some cabinets.now) (λ why. (why ≡ Bare) × (self.now.cabinets ≡ None)) }
    {
        self.cabinets.as_ref().ok_or(Refusal::Bare)
    }
}
