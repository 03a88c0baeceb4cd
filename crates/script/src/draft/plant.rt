// The cabinets that were named are planted, over a new post.
ghost use Rattle.std.specs.Prelude.{◌≡◌, ℕ, [], None, Some, MatchResult};
ghost use Rattle.tree.specs.Trees.{tree_refusal};
ghost use Rattle.bank.specs.Banks.{own_rules, bank_of};
ghost use Rattle.script.specs.Grounds.{refusal};
ghost use Rattle.script.specs.Obeying.{PlantedOver, PlantsTheDraft};
ghost use Rattle.script.specs.Stages.{draft_of, stage_of};

use crate::draft::{Choice, Draft, Setting};
use crate::stage::Stage;
use bank::bank::Bank;
use cable::number::CabinetNo;
use cable::refusal::Refusal;
use post::post::Post;
use post::straight::Straight;
use retry::retry::Retry;
use wiring::clean::Clean;
use wiring::patterned::Patterned;

impl Draft {
    pub(crate) fn plant(&self) -> Result<Stage, Refusal>
        ensures cases { MatchResult result (λ stage. (tree_refusal (draft_of self.now).parents ≡ None) × PlantsTheDraft (draft_of self.now) (stage_of stage)) (λ why. tree_refusal (draft_of self.now).parents ≡ Some why) }
    {
        let parents = self.parents.as_slice();
        match &self.post {
            Choice::Straight => Ok(Stage::Straight(planted(Straight::new(), parents)?)),
            Choice::Clean => Ok(Stage::Clean(planted(Retry::new(Clean::new()), parents)?)),
            Choice::Retry(setting) => {
                let wiring = Patterned::with(setting.misses, &setting.patterns);
                Ok(Stage::Retry(planted(Retry::new(wiring), parents)?))
            }
        }
    }
}

// A new bank over this post, planted.
fn planted<P: Post + Drop>(post: P, parents: &[CabinetNo]) -> Result<Bank<P>, Refusal>
    requires idle { (l : ℕ) → (P.means post).waiting l ≡ [] }
    ensures cases { MatchResult result (λ bank. (tree_refusal parents.now ≡ None) × PlantedOver (own_rules P.means P.puts P.pulls) post parents.now (bank_of bank)) (λ why. tree_refusal parents.now ≡ Some why) }
{
    let mut bank = Bank::new(post);
    bank.plant(parents)?;
    Ok(bank)
}
